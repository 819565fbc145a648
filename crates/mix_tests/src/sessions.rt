// Sessions that are drawn at random: what a clearing gives is what the auction, as it then stands, is solved to.
ghost use Rattle.std.specs.Prelude.{◌≡◌, ◌<◌, ◌≤◌, ◌≢◌, ◌⊎◌, Some, None, true, pos, length, IfOk, IfSome, IsSome};
ghost use Rattle.mix_bids.specs.Bids.{IsBid};
ghost use Rattle.mix_num.specs.Ranges.{Lies};
ghost use Rattle.mix_text.specs.Spelling.{is_name};

use mix_answer::{Outcome, print_outcome};
use mix_bids::{Bid, Values};
use mix_session::{AddError, Session};
use mix_solve::solve;
use mix_step::Steps;
use mix_text::{Auction, Name, read_auction, read_name};
use rand_core::SeedableRng;
use rand_core::utils::NextWord;
use rand_pcg::Lcg64Xsh32;
use std::alloc::Global;
use std::marker::Brand;
use std::sync::ledger::{Blank, Ledger};
use std::test::Fail;

// How many sessions, and how often the auction of each changes.
const SESSIONS: u64 = 20;

const CHANGES: usize = 12;

// The auction with which each session begins.
const AUCTION: &[u8] =
    b"mix,3\ngoods,A,B\nsupply,3,2\nreserve,1,0\nbid,P,2,7,4\nbid,Q,1,-,5\nbid,R,3,6,6\ncap,Q,1\norder,R,P,Q\nend\n";

// A number below another.
fn draw(words: &mut Lcg64Xsh32, below: u32) -> u32
    requires { 0 < below }
    ensures { result < below }
{
    words.next_word() % below
}

// One of five names.
#[tactic(auto, using(mix_text::proofs::Spellings::name_read))]
fn draw_name(words: &mut Lcg64Xsh32) -> Result<Name, Fail>
    ensures { IfOk result (λ name. is_name name.bytes ≡ true) }
{
    let name: &[u8] = match draw(words, 5) {
        0 => b"P",
        1 => b"Q",
        2 => b"R",
        3 => b"S",
        _ => b"T",
    };
    Ok(read_name(name).ok().ok_or("a name")?)
}

// A bid for the first good, and unless it is left out for the second.
fn bid(weight: i64, first: u32, second: Option<u32>) -> Bid
    requires weight { Lies 10000 weight }
    requires some { weight ≢ pos 0 }
    requires first { first ≤ 1000 }
    requires second { IfSome second (λ value. value ≤ 1000) }
    ensures { IsBid 2 result }
{
    let mut values = Values::new();
    values.push(Some(i64::from(first)));
    values.push(match second {
        Some(value) => Some(i64::from(value)),
        None => None,
    });
    Bid { weight, values }
}

// A bid for the second good alone.
fn second_alone(weight: i64, second: u32) -> Bid
    requires weight { Lies 10000 weight }
    requires some { weight ≢ pos 0 }
    requires second { second ≤ 1000 }
    ensures { IsBid 2 result }
{
    let mut values = Values::new();
    values.push(None);
    values.push(Some(i64::from(second)));
    Bid { weight, values }
}

// Adds a bid, where it may be added.
fn add(session: &mut Session, name: &Name, bid: Bid) -> Result<(), Fail>
    requires name { is_name name.now.bytes ≡ true }
    requires bid { IsBid (length session.old.auction.goods) bid }
    ensures { length session.new.auction.goods ≡ length session.old.auction.goods }
{
    match session.add(name, bid) {
        Ok(()) | Err(AddError::Weight | AddError::Limit(_)) => Ok(()),
        Err(AddError::Memory) => Err("memory".into()),
    }
}

// One unit of either good, another of the better of the two at more, and the first one back: such a list stays a demand.
fn add_block(
    session: &mut Session,
    name: &Name,
    first: u32,
    second: u32,
    more: u32,
) -> Result<(), Fail>
    requires goods { length session.old.auction.goods ≡ 2 }
    requires name { is_name name.now.bytes ≡ true }
    requires first { first ≤ 100 }
    requires second { second ≤ 100 }
    requires more { more ≤ 100 }
    ensures { length session.new.auction.goods ≡ 2 }
{
    add(session, name, bid(1, first, None))?;
    add(session, name, bid(1, first + more, Some(second + more)))?;
    add(session, name, second_alone(1, second))?;
    add(session, name, bid(-1, first, Some(second)))
}

// One change: of eight, four add a bid, one adds a block, one takes back what was never bid, and two drop a bidder.
fn change(words: &mut Lcg64Xsh32, session: &mut Session) -> Result<(), Fail>
    requires { length session.old.auction.goods ≡ 2 }
    ensures { length session.new.auction.goods ≡ 2 }
{
    let name = draw_name(words)?;
    let first = draw(words, 12);
    let second = draw(words, 12);
    match draw(words, 8) {
        0 => add(session, &name, bid(2, first, None)),
        1 | 2 | 3 => add(session, &name, bid(1, first, Some(second))),
        4 => add_block(session, &name, first, second, draw(words, 5)),
        5 => add(session, &name, bid(-1, first, Some(second))),
        _ => {
            let _dropped = session.drop_bidder(&name);
            Ok(())
        }
    }
}

// How many outcomes of a session were compared, and how many of them were refusals.
#[derive(Drop)]
struct Counts {
    alike: usize,
    refused: usize,
}

// What the auction is solved to, and whether it is refused.
fn solved(alloc: Global, auction: &Auction) -> Result<(Vec<u8>, bool), Fail> {
    let outcome = solve(alloc, auction).ok().ok_or("memory")?;
    let printed = print_outcome(alloc, auction, &outcome)
        .ok()
        .ok_or("memory")?;
    Ok((printed, matches!(outcome, Outcome::Refused(_))))
}

// What the session gives of its auction as it stands.
fn cleared<L: Ledger>(
    alloc: Global,
    session: &mut Session,
    steps: &mut Steps<L>,
) -> Result<Vec<u8>, Fail>
    ensures { session.new.auction ≡ session.old.auction }
{
    let outcome = session.clear(alloc, steps).ok().ok_or("memory")?;
    let printed = print_outcome(alloc, session.auction(), &outcome);
    Ok(printed.ok().ok_or("memory")?)
}

// The session of a number, on a ledger of its own: after each change its outcome is compared with what the auction is solved to.
fn compared<L: Ledger>(alloc: Global, seed: u64, blank: Blank) -> Result<Counts, Fail>
    requires name { blank.name ≡ L.name }
    requires parts { blank.parts ≡ L.parts }
    requires some { 0 < blank.parts }
{
    let mut steps = Steps::<L>::new(blank);
    let mut words = Lcg64Xsh32::seed_from_u64(seed);
    let (auction, _) = read_auction(alloc, AUCTION)?;
    if auction.goods.len() != 2 {
        return Err("two goods".into());
    }
    let mut session = Session::begin(alloc, auction).ok().ok_or("memory")?;
    let mut counts = Counts {
        alike: 0,
        refused: 0,
    };
    for _ in 0..CHANGES {
        change(&mut words, &mut session)?;
        let found = cleared(alloc, &mut session, &mut steps)?;
        let (wanted, is_refused) = solved(alloc, session.auction())?;
        if found == wanted {
            counts.alike += 1;
        }
        if is_refused {
            counts.refused += 1;
        }
    }
    Ok(counts)
}

#[test]
fn random_sessions(rt: HostRuntime) -> Result<(), Fail> {
    let alloc = rt.alloc();
    let mut refused = 0;
    for seed in 0..SESSIONS {
        let counts = compared::<Brand>(alloc, seed, Blank::new(1))?;
        assert_eq!(rt; counts.alike, CHANGES);
        refused = counts.refused.max(refused);
    }
    // Some of them were refusals.
    assert!(rt; refused > 0);
    Ok(())
}
