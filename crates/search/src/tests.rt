use crate::Search;
use rings::Refusal;
use std::process::Abort;
use std::test::Fail;

// The list of a search that has two vectors, or one twice.
fn gives(rt: &impl Abort, polynomial: u32, first: u32, second: u32) -> Result<(), Fail> {
    let mut search = Search::open(polynomial)?;
    assert_eq!(rt; search.count(), 2);
    assert_eq!(rt; search.next()?, first);
    assert_eq!(rt; search.next()?, second);
    assert_eq!(rt; search.next(), Err(Refusal::NoVectorLeft));
    Ok(())
}

#[test]
fn short_lists(rt: HostRuntime) -> Result<(), Fail> {
    gives(&rt, 7, 1, 2)?;
    gives(&rt, 11, 3, 6)?;
    gives(&rt, 21, 0, 15)?;
    gives(&rt, 37, 15, 30)?;
    gives(&rt, 67, 6, 24)?;
    gives(&rt, 131, 77, 89)?;
    gives(&rt, 0x8000_0009, 2108737247, 2108786399)
}

#[test]
fn one_vector_or_none(rt: HostRuntime) -> Result<(), Fail> {
    assert_eq!(rt; Search::open(2)?.next()?, 0);
    assert_eq!(rt; Search::open(3)?.next()?, 1);
    assert_eq!(rt; Search::open(3)?.count(), 1);
    assert_eq!(rt; Search::open(6)?.count(), 0);
    assert_eq!(rt; Search::open(6)?.next(), Err(Refusal::NoVectorLeft));
    assert!(rt; Search::open(1).is_err());
    Ok(())
}

#[test]
fn pins_narrow_the_list(rt: HostRuntime) -> Result<(), Fail> {
    let mut search = Search::open(121)?;
    assert_eq!(rt; search.count(), 4);
    assert_eq!(rt; search.next()?, 4);
    search.rewind();
    search.pin(1, 1)?;
    assert_eq!(rt; search.count(), 2);
    assert_eq!(rt; search.next()?, 55);
    assert_eq!(rt; search.next()?, 59);
    assert_eq!(rt; search.next(), Err(Refusal::NoVectorLeft));
    search.rewind();
    assert_eq!(rt; search.next()?, 55, "the pin stays");
    search.rewind();
    search.unpin(1)?;
    assert_eq!(rt; search.next()?, 4);
    Ok(())
}

#[test]
fn questions_in_their_order(rt: HostRuntime) -> Result<(), Fail> {
    let mut search = Search::open(7)?;
    assert_eq!(rt; search.pin(0, 2), Err(Refusal::NoSuchCell));
    assert_eq!(rt; search.pin(3, 2), Err(Refusal::NoSuchCell));
    assert_eq!(rt; search.pin(2, 2), Err(Refusal::PinValue));
    search.pin(2, 0)?;
    assert_eq!(rt; search.pin(2, 2), Err(Refusal::PinValue));
    assert_eq!(rt; search.pin(2, 1), Err(Refusal::CellPinned));
    assert_eq!(rt; search.unpin(1), Err(Refusal::CellNotPinned));
    assert_eq!(rt; search.next()?, 1);
    assert_eq!(rt; search.pin(0, 2), Err(Refusal::SearchRunning));
    assert_eq!(rt; search.unpin(0), Err(Refusal::SearchRunning));
    Ok(())
}
