//! What a crash can leave after the whole lines of a log: the beginning of a line that the log gets, and zeros.

ghost use Rattle.std.specs.Prelude.{◌≡◌, ◌≤◌, length, take};
ghost use Rattle.run_journal.specs.TornEnds.{most_digits, stands_for, stands_for_one, begins, begins_report, begins_order, begins_late, begins_late_step, begins_plan, without_zeros, is_torn};

/// Whether a crash can have left these bytes after the whole lines: the beginning of some line of a report, of an
/// order, of a late report or of a plan, or nothing, and then zeros, or none.
///
/// Zeros before other bytes don't count as that, though a file system may leave them; of what stands there nothing
/// was shown, so it may be cut off by hand.
pub fn is_torn_end(end: &[u8]) -> bool
    ensures { result ≡ is_torn end.now }
{
    let bytes = without_zeros(end);
    begins_report(bytes) || begins_order(bytes) || begins_late(bytes) || begins_plan(bytes)
}

fn begins_report(bytes: &[u8]) -> bool
    ensures { result ≡ begins_report bytes.now }
{
    begins(b"report # arrive %", bytes)
        || begins(b"report # finish % %", bytes)
        || begins(b"report # clean %", bytes)
}

fn begins_order(bytes: &[u8]) -> bool
    ensures { result ≡ begins_order bytes.now }
{
    begins(b"order # % % %", bytes)
        || begins(b"order # % % out", bytes)
        || begins(b"order # % out %", bytes)
        || begins(b"order # % out out", bytes)
}

/// What comes after the moment is of version 2 of the lines.
fn begins_late(bytes: &[u8]) -> bool
    ensures { result ≡ begins_late bytes.now }
{
    begins(b"late # job % arrives # and % more", bytes)
        || begins(b"late # job % on machine % since # due # and % more", bytes)
        || begins(
            b"late # machine % cleaned after job % since # due # and % more",
            bytes,
        )
        || begins_late_step(bytes)
}

/// So it is, with the step of the job, of a shop with recirculation.
fn begins_late_step(bytes: &[u8]) -> bool
    ensures { result ≡ begins_late_step bytes.now }
{
    begins(
        b"late # job %.% on machine % since # due # and % more",
        bytes,
    ) || begins(
        b"late # machine % cleaned after job %.% since # due # and % more",
        bytes,
    )
}

fn begins_plan(bytes: &[u8]) -> bool
    ensures { result ≡ begins_plan bytes.now }
{
    begins(
        b"unfinished plan @@@@@@@@@@@@@@@@ shop @@@@@@@@@@@@@@@@",
        bytes,
    )
}

/// Whether a line of this form, in which `#` stands for a moment, `%` for another number and `@` for a hexadecimal
/// digit, begins with these bytes.
fn begins(form: &[u8], bytes: &[u8]) -> bool
    ensures { result ≡ begins form.now bytes.now }
{
    let mut wanted = form;
    // How many more digits the number may have.
    let mut more = 0_usize;
    let mut rest = bytes;
    while let Some((byte, after)) = rest.split_first() {
        if more > 0 && byte.is_ascii_digit() {
            more -= 1;
        } else {
            let Some((first, behind)) = wanted.split_first() else {
                return false;
            };
            if !stands_for(*first, *byte) {
                return false;
            }
            more = digits_of(*first).saturating_sub(1);
            wanted = behind;
        }
        rest = after;
    }
    true
}

/// The most digits of a moment.
const MOMENT_DIGITS: usize = 13;

/// The most digits of the number of a job, of its step or of a machine, or of how many more are overdue.
const OTHER_DIGITS: usize = 3;

/// The most digits of the number for which this stands in a form: 0 where it stands for itself.
fn digits_of(form: u8) -> usize
    ensures { result ≡ most_digits form }
{
    match form {
        b'#' => MOMENT_DIGITS,
        b'%' => OTHER_DIGITS,
        _ => 0,
    }
}

/// Whether the byte of a line is as its form says.
fn stands_for(form: u8, byte: u8) -> bool
    ensures { result ≡ stands_for form byte }
{
    if digits_of(form) == 0 {
        stands_for_one(form, byte)
    } else {
        byte.is_ascii_digit()
    }
}

/// The same of a byte of the form that is no number.
fn stands_for_one(form: u8, byte: u8) -> bool
    ensures { result ≡ stands_for_one form byte }
{
    if form == b'@' {
        matches!(byte, b'0'..=b'9' | b'a'..=b'f')
    } else {
        form == byte
    }
}

/// The bytes before the zeros at their end.
fn without_zeros(bytes: &[u8]) -> &[u8]
    ensures { result.now ≡ without_zeros bytes.now }
{
    &bytes[..zeroless_len(bytes)]
}

/// How many bytes come before the zeros at their end.
fn zeroless_len(bytes: &[u8]) -> usize
    ensures within { result ≤ length bytes.now }
    ensures zeroless { take result bytes.now ≡ without_zeros bytes.now }
{
    let mut len = bytes.len();
    while len > 0 && bytes[len - 1] == 0 {
        len -= 1;
    }
    len
}
