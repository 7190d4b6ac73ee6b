//! What a picture writes for a job and a machine: what people call them, as XML has texts. A moment is written as in a
//! line.

ghost use Rattle.std.specs.Prelude.{◌≡◌, ◌+◌, ◌*◌, ◌≤◌, ◌++◌, length};
ghost use Rattle.std.specs.List.{count_by};
ghost use Rattle.people_names.specs.Words.{job_word as job_name, machine_word as machine_name};
ghost use Rattle.run_picture.specs.Words.{is_broad, width_of, escaped_byte, escaped, job_word, machine_word};
ghost use Rattle.run_picture.specs.declared.words.TheConstants.{WORD_ROOM};

use people_names::{LONGEST_NAME, Names};
use shop_base::{JobNo, MachineNo};
use text_lines::LineText;

/// No word for a job or a machine has more bytes in XML.
pub(crate) const WORD_ROOM: usize = 200;

/// What people call a job or a machine.
pub(crate) type NameText = LineText<LONGEST_NAME>;

/// Writes a job before what there is.
pub(crate) fn put_job<const ROOM: usize>(line: &mut LineText<ROOM>, names: &Names, job: JobNo)
    requires { WORD_ROOM + length line.old ≤ ROOM }
    ensures written { line.new ≡ job_word names.now job ++ line.old }
    ensures length { length line.new ≤ WORD_ROOM + length line.old }
{
    put_escaped(line, job_name(names, job).bytes());
}

/// Writes a machine before what there is.
pub(crate) fn put_machine<const ROOM: usize>(
    line: &mut LineText<ROOM>,
    names: &Names,
    machine: MachineNo,
)
    requires { WORD_ROOM + length line.old ≤ ROOM }
    ensures written { line.new ≡ machine_word names.now machine ++ line.old }
    ensures length { length line.new ≤ WORD_ROOM + length line.old }
{
    put_escaped(line, machine_name(names, machine).bytes());
}

/// What people call the job, else its number.
pub(crate) fn job_name(names: &Names, job: JobNo) -> NameText
    ensures name { result ≡ job_name names.now job }
    ensures short { length result ≤ 40 }
{
    let mut name = NameText::empty();
    names.put_job(&mut name, job);
    name
}

/// What people call the machine, else its number.
pub(crate) fn machine_name(names: &Names, machine: MachineNo) -> NameText
    ensures name { result ≡ machine_name names.now machine }
    ensures short { length result ≤ 40 }
{
    let mut name = NameText::empty();
    names.put_machine(&mut name, machine);
    name
}

/// How broad a word is, in tenths of a pixel, where most letters have this room.
pub(crate) fn width_of(letter: u64, word: &[u8]) -> u64
    requires letter { letter ≤ 80 }
    requires short { length word.now ≤ 40 }
    ensures width { result ≡ width_of letter word.now }
    ensures narrow { result ≤ 4_800 }
{
    letter * word.len() as u64 + 40 * broad_letters(word)
}

/// How many of the letters are as broad as `W`.
fn broad_letters(word: &[u8]) -> u64
    ensures count { result ≡ count_by is_broad word.now }
    ensures few { result ≤ length word.now }
{
    word.iter().filter(|byte| is_broad(**byte)).count() as u64
}

/// Whether a byte is a letter as broad as `W`.
fn is_broad(byte: u8) -> bool
    ensures { result ≡ is_broad byte }
{
    byte == b'%' || byte == b'@' || byte == b'M' || byte == b'W' || byte == b'm' || byte == b'w'
}

/// Writes a text before what there is, as XML has it.
fn put_escaped<const ROOM: usize>(line: &mut LineText<ROOM>, text: &[u8])
    requires { 5 * length text.now + length line.old ≤ ROOM }
    ensures written { line.new ≡ escaped text.now ++ line.old }
    ensures length { length line.new ≤ 5 * length text.now + length line.old }
{
    let mut place = text.len();
    while place > 0 {
        place -= 1;
        put_byte(line, text[place]);
    }
}

/// Writes a byte of a text before what there is, as XML has it.
fn put_byte<const ROOM: usize>(line: &mut LineText<ROOM>, byte: u8)
    requires { 5 + length line.old ≤ ROOM }
    ensures written { line.new ≡ escaped_byte byte ++ line.old }
    ensures length { length line.new ≤ 5 + length line.old }
{
    if byte == b'&' {
        line.put_text(b"&amp;");
    } else if byte == b'<' {
        line.put_text(b"&lt;");
    } else if byte == b'>' {
        line.put_text(b"&gt;");
    } else {
        line.put_text(&[byte]);
    }
}
