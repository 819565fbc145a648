// A list over three goods whose one facet of negative weight shows at a point that is made of two bids; least points of its levels.
ghost use Rattle.std.specs.Prelude.{◌≡◌, ◌<◌, ◌∷◌, [], suc, length, IfOk, OnOk};
ghost use Rattle.mix_bids.specs.Bids.{IsBid};

use crate::{LeastPoint, grid_of, levels_of, lowest, price_of, weight_at};
use mix_bids::{Bid, BidList, Values};
use mix_num::Memory;
use std::alloc::Global;
use std::test::Fail;

/// A bid over three goods.
fn bid(weight: i64, first: Option<i64>, second: Option<i64>, third: Option<i64>) -> Bid
    ensures { result ≡ record { weight = weight; values = record { items = first ∷ second ∷ third ∷ [] } } }
{
    let mut values = Values::new();
    values.push(first);
    values.push(second);
    values.push(third);
    Bid { weight, values }
}

/// Adds a bid to a list over three goods.
fn add(list: &mut BidList, bid: Bid) -> Result<(), Memory>
    requires goods { list.old.goods ≡ 3 }
    requires bid { IsBid 3 bid }
    requires room { length list.old.bids < 400 }
    ensures goods { OnOk result (list.new.goods ≡ 3) }
    ensures size { OnOk result (length list.new.bids ≡ suc (length list.old.bids)) }
{
    list.push(bid)
}

/// The bids (5, 2, 2; 1), (5, 2, 8; -1), (5, 8, 2; -1), (-, 8, 2; 1), (-, 2, 8; 1), (6, 9, -; 1) and (6, -, 9; 1).
fn seven(alloc: Global) -> Result<BidList, Memory>
    ensures { IfOk result (λ list. list.goods ≡ 3) }
{
    let mut list = BidList::new(alloc, 3);
    add(&mut list, bid(1, Some(5), Some(2), Some(2)))?;
    add(&mut list, bid(-1, Some(5), Some(2), Some(8)))?;
    add(&mut list, bid(-1, Some(5), Some(8), Some(2)))?;
    add(&mut list, bid(1, None, Some(8), Some(2)))?;
    add(&mut list, bid(1, None, Some(2), Some(8)))?;
    add(&mut list, bid(1, Some(6), Some(9), None))?;
    add(&mut list, bid(1, Some(6), None, Some(9)))?;
    Ok(list)
}

/// The candidates and the facet weights of nothing against the first good at the difference -5: by the number of the point its
/// coordinates, of the second good and the third, and the weight there.
#[test]
fn two_bids_make_the_failing_point(rt: HostRuntime) -> Result<(), Fail> {
    let list = seven(rt.alloc())?;
    let levels = levels_of(rt.alloc(), &list, 0, 1)?;
    assert_eq!(rt; levels.len(), 1);
    let level = levels.level(0);
    let grid = grid_of(rt.alloc(), &list, level)?;
    assert_eq!(rt; grid.size(), 9);

    let rows = [
        ([2, 2], 0),
        ([3, 2], 0),
        ([9, 2], 0),
        ([2, 3], 0),
        ([3, 3], 1),
        ([9, 3], 0),
        ([2, 9], 0),
        ([3, 9], 0),
        ([9, 9], -1),
    ];
    for number in 0..9 {
        let (coordinates, weight) = rows[number];
        let point = grid.point(number as u64);
        assert_eq!(rt; point.as_slice(), coordinates.as_slice());
        assert_eq!(rt; weight_at(&list, level, &point), weight);
    }
    assert_eq!(rt;
        price_of(level, &grid.point(8)).as_slice(),
        [5, 9, 9].as_slice()
    );
    Ok(())
}

/// By the two choices and the place of the level, the least facet weight, the number of its first point, and the point's
/// coordinates. In the last two levels three of the four points have the least weight, and two of them.
#[test]
fn least_points(rt: HostRuntime) -> Result<(), Fail> {
    let list = seven(rt.alloc())?;
    let rows = [
        ((0, 1, 0), -1, 8, [9, 9]),
        ((0, 2, 0), 0, 0, [5, 2]),
        ((0, 2, 1), 0, 0, [5, 2]),
    ];
    for ((first, second, place), weight, index, coordinates) in rows {
        let levels = levels_of(rt.alloc(), &list, first, second)?;
        assert!(rt; place < levels.len());
        let level = levels.level(place);
        let grid = grid_of(rt.alloc(), &list, level)?;
        let least = lowest(rt.alloc(), &list, level, &grid)?;
        assert_eq!(rt; least, LeastPoint { index, weight });
        assert_eq!(rt; grid.point(least.index).as_slice(), coordinates.as_slice());
        assert_eq!(rt; weight_at(&list, level, &grid.point(least.index)), weight);
    }
    Ok(())
}
