// The members of a session's market, which are moved out of what is known of the bidders, and back.
ghost use Rattle.std.specs.Prelude.{◌≡◌, ◌+◌, ◌∷◌, ◌++◌, ◌<◌, ◌≤◌, [], length, map, vec_len, vec_capacity, IfOk, OnErr};
ghost use Rattle.mix_session.specs.Standings.{AreTakenIn, IsTakenIn};

use crate::standing::Standing;
use mix_cap::Member;
use mix_num::Memory;
use std::alloc::Global;
use std::mem::replace;

// The member of a bidder that is convex. In its place nothing is known.
fn moved_out(standing: &mut Standing) -> Member
    requires { IsTakenIn standing.old }
    ensures { standing.old ≡ Standing.Convex result }
{
    match replace(standing, Standing::Open) {
        Standing::Convex(member) => member,
        _ => unreachable!(),
    }
}

// Adds a member where there is room for it.
fn push_into_room(members: &mut Vec<Member>, member: Member)
    requires { vec_len members.old < vec_capacity members.old }
    ensures items { members.new.items ≡ members.old.items ++ member ∷ [] }
    ensures len { vec_len members.new ≡ vec_len members.old + 1 }
    ensures room { vec_capacity members.old ≤ vec_capacity members.new }
{
    let Ok(()) = members.push(member) else {
        unreachable!()
    };
}

/// The members of bidders that are all convex, in order. Where memory is wanting, they stay where they are.
pub(crate) fn move_out(alloc: Global, standings: &mut [Standing]) -> Result<Vec<Member>, Memory>
    requires { AreTakenIn standings.old }
    ensures members { IfOk result (λ members. standings.old ≡ map Standing.Convex members.items) }
    ensures err { OnErr result (standings.new ≡ standings.old) }
{
    let Ok(mut members) = Vec::with_capacity(alloc, standings.len()) else {
        return Err(Memory);
    };
    for k in 0..standings.len() {
        let member = moved_out(&mut standings[k]);
        push_into_room(&mut members, member);
    }
    Ok(members)
}

/// Puts the members back in order, which takes no memory.
pub(crate) fn move_back(standings: &mut [Standing], members: Vec<Member>)
    requires { length members.items ≡ length standings.old }
    ensures { standings.new ≡ map Standing.Convex members.items }
{
    let mut k = 0;
    for member in members {
        standings[k] = Standing::Convex(member);
        k += 1;
    }
}
