//! The functions of the examples that take memory, each called once.
use super::begun::key_of;
use example_tree::clients::{
    Counts, compare_and_set, count_up, get_or_insert, move_value, set_three, set_twice, swap,
    take_and_put_back, transfer, try_and_undo,
};
use example_tree::in_common::prices_both_ways;
use example_tree::listing::{all_prices, listing, listing_along, listing_between, listing_under};
use example_tree::prices::{
    PriceError, PriceList, before_and_after, set_price_counted, try_set_price,
};
use example_tree::snapshots::replies_beside_a_snapshot;
use example_tree::stock::{Stock, add};
use example_tree::values::{Numbers, Readings, Text, Titles, keep, retitle};
use example_tree::visiting::prices_under;
use rart_family::{Reply, VectorKey, Work};
use std::alloc::{AllocError, Global};
use std::test::Fail;

// How many calls there are of each kind.
const CLIENTS: usize = 10;

const LISTINGS: usize = 7;

const OTHERS: usize = 6;

// One request alone is refused, so what was refused is done once more.
#[test]
fn examples_survive_refusals(rt: HostRuntime) -> Result<(), Fail> {
    let alloc = rt.alloc();
    for number in 0..CLIENTS + LISTINGS + OTHERS {
        let answer = match is_met(alloc, number) {
            Ok(answer) => answer,
            Err(AllocError) => is_met(alloc, number)?,
        };
        assert!(rt; answer, "call {number}");
    }
    Ok(())
}

// Whether the call of this number answers what is wanted.
fn is_met(alloc: Global, number: usize) -> Result<bool, AllocError> {
    let tea = key_of(alloc, b"tea")?;
    let pot = key_of(alloc, b"teapot")?;
    let mut prices = PriceList::new(alloc);
    prices.insert_k(&pot, 1200)?;
    prices.insert_k(&tea, 300)?;
    if number < CLIENTS {
        change(number, &mut prices, &tea, &pot, &key_of(alloc, b"salt")?)
    } else if number < CLIENTS + LISTINGS {
        list(number - CLIENTS, alloc, &prices, &tea)
    } else {
        begin(number - CLIENTS - LISTINGS, alloc, &tea)
    }
}

// The functions that change a few keys, of which the first two have 300 and 1200.
fn change(
    number: usize,
    counts: &mut Counts,
    tea: &VectorKey,
    pot: &VectorKey,
    salt: &VectorKey,
) -> Result<bool, AllocError> {
    let tea_has = counts.get_k(tea).copied().unwrap_or(0);
    let pot_has = counts.get_k(pot).copied().unwrap_or(0);
    let are_apart = tea != pot && tea != salt && pot != salt;
    if counts.version() > 1000 || tea_has > 1000 || pot_has < 1000 || !are_apart {
        return Ok(false);
    }
    match number {
        0 => set_twice(counts, tea, 1, 30)?,
        1 => set_three(counts, tea, pot, salt, (7, 8, 9))?,
        2 => count_up(counts, tea)?,
        3 => take_and_put_back(counts, tea)?,
        4 => transfer(counts, pot, tea, 1000)?,
        5 => return Ok(get_or_insert(counts, tea, 9)? == 300),
        6 => return compare_and_set(counts, tea, 300, 40),
        7 => return move_value(counts, tea, salt),
        8 => return swap(counts, tea, pot),
        _ => return Ok(try_and_undo(counts, tea, 7)? == Some(7)),
    }
    Ok(true)
}

// The functions that read a list of two names, of which the first begins the second.
fn list(
    number: usize,
    alloc: Global,
    prices: &PriceList,
    tea: &VectorKey,
) -> Result<bool, AllocError> {
    Ok(match number {
        0 => listing(alloc, prices)?.len() == 2,
        1 => listing_under(alloc, prices, tea)?.len() == 2,
        2 => listing_along(alloc, prices, tea)?.len() == 1,
        3 => {
            let (first, end) = (key_of(alloc, b"tea")?, key_of(alloc, b"teapot")?);
            listing_between(alloc, prices, first, end)?.len() == 1
        }
        4 => all_prices(alloc, prices)?.as_slice() == [300, 1200].as_slice(),
        5 => prices_under(alloc, prices, tea)?.as_slice() == [300, 1200].as_slice(),
        _ => prices_both_ways(alloc, prices, prices)?.1.len() == 2,
    })
}

// The functions that are called on something new.
fn begin(number: usize, alloc: Global, tea: &VectorKey) -> Result<bool, AllocError> {
    match number {
        0 => {
            let mut prices = PriceList::new(alloc);
            let told = before_and_after(&mut prices, "tea", 300)?;
            Ok(told == (None, Some(300)))
        }
        1 => {
            let mut prices = PriceList::new(alloc);
            set_price_counted(&mut prices, "salt", 90, &mut Work::new())?;
            Ok(true)
        }
        2 => {
            let mut prices = PriceList::new_at(alloc, u64::MAX - 1);
            if try_set_price(&mut prices, "tea", 300).is_err() {
                return Err(AllocError);
            }
            let tried = try_set_price(&mut prices, "tea", 350);
            Ok(matches!(tried, Err(PriceError::NoRoom)))
        }
        3 => {
            let mut stock = Stock::new(alloc);
            add(alloc, &mut stock, "tea", 5)?;
            Ok(true)
        }
        4 => keep_and_title(alloc),
        _ => {
            let replies = replies_beside_a_snapshot(alloc, tea, 1_u64, 2)?;
            match replies[4] {
                Reply::Value(Some(1)) => Ok(true),
                _ => Err(AllocError),
            }
        }
    }
}

fn keep_and_title(alloc: Global) -> Result<bool, AllocError> {
    let mut titles = Titles::new(alloc);
    let old = retitle(alloc, &mut titles, "tea", Text::new(alloc, "Tea")?)?;
    let mut readings = Readings::new(alloc);
    let numbers = Numbers::new([3, 5].to_vec(alloc)?);
    Ok(!keep(alloc, &mut readings, "tea", numbers)? && old.is_none())
}
