ghost use Rattle.std.specs.Prelude.{◌≡◌, IfOk};
ghost use Rattle.event_lines.specs.RunDigits.{AreDigits};
ghost use Rattle.run_log.specs.Digits.{digits_of, first_digits};

use event_lines::RunDigits;
use orlib_read::instance_lines;
use plan_text::plan_lines;
use sha2::{Digest, Sha256};
use shop_base::{Plan, Shop};
use std::alloc::{AllocError, Global};

/// The digits of a plan and its shop (SHA-256: FIPS 180-4).
pub fn run_digits(alloc: Global, shop: &Shop, plan: &Plan) -> Result<RunDigits, AllocError>
    ensures is { IfOk result (λ digits. digits ≡ digits_of shop.now plan.now) }
    ensures hexadecimal { IfOk result AreDigits }
{
    let of_plan = plan_lines(alloc, plan)?;
    let of_shop = instance_lines(alloc, b"", shop)?;
    Ok(RunDigits {
        plan: first_digits(of_plan.as_bytes()),
        shop: first_digits(&of_shop),
    })
}

/// The first 16 hexadecimal digits of the text's SHA-256, in small letters.
fn first_digits(text: &[u8]) -> [u8; 16]
    ensures { result ≡ first_digits text.now }
{
    let digest = Sha256::digest(text);
    let mut digits = [0; 16];
    match hex::encode_to_slice(&digest[..8], &mut digits) {
        Ok(()) => digits,
        Err(_) => unreachable!(),
    }
}
