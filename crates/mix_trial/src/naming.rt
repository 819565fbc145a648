// The names in a trial auction.
ghost use Rattle.std.specs.Prelude.{◌≡◌, ◌<◌, true, IfOk};
ghost use Rattle.mix_text.specs.Spelling.{is_name};
ghost use Rattle.mix_trial.specs.Trials.{bidder_name as bidder_name_of, good_names as good_names_of};

use mix_num::Memory;
use mix_text::{Name, Names, read_name};
use std::alloc::Global;

// The name of these bytes.
#[tactic(auto, using(crate::proofs::TrialNames::name_is))]
fn name(bytes: &[u8]) -> Name
    requires { is_name bytes.now ≡ true }
    ensures { result.bytes ≡ bytes.now }
{
    read_name(bytes).unwrap()
}

/// The name of a bidder: B and two digits.
#[tactic(auto, using(crate::proofs::TrialNames::bidder_named))]
pub fn bidder_name(number: u8) -> Name
    requires { number < 100 }
    ensures { result.bytes ≡ bidder_name_of number }
{
    name(&[b'B', b'0' + number / 10, b'0' + number % 10])
}

/// The names of the goods.
pub fn good_names(alloc: Global) -> Result<Names, Memory>
    ensures { IfOk result (λ names. names ≡ good_names_of) }
{
    let mut names = Names::new(alloc);
    names.push(name(b"A"))?;
    names.push(name(b"B"))?;
    names.push(name(b"C"))?;
    names.push(name(b"D"))?;
    names.push(name(b"E"))?;
    Ok(names)
}
