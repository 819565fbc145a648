// Tables for tests, and sharing at the greatest sizes.
ghost use Rattle.std.specs.Prelude.{◌≡◌, ◌≤◌, ◌<◌, pos, length, replicate, IfOk};
ghost use Rattle.mix_ties.specs.Numbered.{LieWithin};

use crate::{Tables, share};
use mix_num::{Bundle, Set, Tight};
use std::alloc::Global;
use std::test::Fail;

/// A table over two goods.
pub fn table(numbers: [i8; 8]) -> [i64; 8]
    ensures value { result ≡ numbers }
    ensures range { LieWithin 8 128 result }
{
    let mut table = [0; 8];
    for (set, number) in numbers.iter().enumerate() {
        table[set] = i64::from(*number);
    }
    table
}

/// Nothing of each good.
fn nothing(goods: usize) -> Bundle
    requires { goods ≤ 8 }
    ensures { result.items ≡ replicate goods (pos 0) }
{
    let mut bundle = Bundle::new();
    for _ in 0..goods {
        bundle.push(0);
    }
    bundle
}

/// Places for so many bundles.
fn places(alloc: Global, members: usize) -> Result<Vec<Bundle>, Fail>
    ensures { IfOk result (λ places. length places.items ≡ members) }
{
    let mut places = Vec::new(alloc);
    for _ in 0..members {
        places.push(Bundle::new())?;
    }
    Ok(places)
}

/// A pair of an upper set and of nothing.
fn pair(upper: u16) -> Tight
    requires { upper < 512 }
{
    Tight {
        upper: Set::from_bits(upper),
        lower: Set::from_bits(0),
    }
}

/// The bundles of members that want nothing, where nothing is shared among them, and the pairs that show it.
fn shares_of_nothing(
    alloc: Global,
    goods: usize,
    members: usize,
) -> Result<(Vec<Bundle>, Vec<Tight>), Fail>
    requires goods { (1 ≤ goods) × (goods ≤ 8) }
    requires members { (1 ≤ members) × (members ≤ 257) }
{
    let Ok(mut tables) = Tables::reserve(alloc, goods, members) else {
        return Err("memory".into());
    };
    let mut bundles = places(alloc, members)?;
    let mut tights = vec![in alloc; pair(0); (members - 1) * goods]?;
    share(&mut tables, &nothing(goods), &mut bundles, &mut tights);
    Ok((bundles, tights))
}

#[test]
fn shares_among_few(rt: HostRuntime) -> Result<(), Fail> {
    let (bundles, tights) = shares_of_nothing(rt.alloc(), 5, 64)?;
    assert_eq!(rt; bundles.len(), 64);
    for bundle in &bundles {
        assert_eq!(rt; bundle.as_slice(), [0; 5].as_slice());
    }
    // The good alone takes no more than it has, and so for each bidder.
    assert_eq!(rt; tights.len(), 315);
    for (k, tight) in tights.iter().enumerate() {
        assert_eq!(rt; *tight, pair(2 << (k % 5)));
    }
    Ok(())
}

#[test]
fn shares_among_the_most(rt: HostRuntime) -> Result<(), Fail> {
    let (bundles, tights) = shares_of_nothing(rt.alloc(), 8, 257)?;
    assert_eq!(rt; bundles.len(), 257);
    for bundle in &bundles {
        assert_eq!(rt; bundle.as_slice(), [0; 8].as_slice());
    }
    assert_eq!(rt; tights.len(), 2048);
    for (k, tight) in tights.iter().enumerate() {
        assert_eq!(rt; *tight, pair(2 << (k % 8)));
    }
    Ok(())
}
