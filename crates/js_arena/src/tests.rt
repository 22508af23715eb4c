use crate::{Arena, ArenaEnd, Cell, CellNo, ErrKind, HandleName, Msg, Props, ShortText, Value};
use std::alloc::Global;
use std::test::Fail;
use wd_base::{NoMemory, Obj, Req, Seq, Units};

fn units(alloc: Global, text: &[u8]) -> Result<Units, NoMemory> {
    let mut units = Seq::new(alloc);
    for byte in text {
        units.push(u16::from(*byte))?;
    }
    Ok(units)
}

fn object(alloc: Global, keys: &[&[u8]]) -> Result<Props, NoMemory> {
    let mut props = Props::new(alloc)?;
    for key in keys {
        props.put(units(alloc, *key)?, Value::Null)?;
    }
    Ok(props)
}

fn cells(alloc: Global) -> Result<Vec<(Cell, u32)>, Fail> {
    let mut rows = Vec::new(alloc);
    let name = ShortText::new(alloc, units(alloc, b"then")?)?;
    rows.push((Cell::Text(units(alloc, b"abc")?), 7))?;
    rows.push((Cell::Variable(None), 2))?;
    rows.push((Cell::Object(Props::new(alloc)?), 8))?;
    rows.push((Cell::Object(object(alloc, &[b"a", b"b", b"a"])?), 16))?;
    rows.push((
        Cell::Array(Seq::copy(alloc, &[Value::Null, Value::Null, Value::Null])?),
        14,
    ))?;
    rows.push((Cell::Function(3), 8))?;
    rows.push((Cell::Activation, 8))?;
    rows.push((Cell::Error(ErrKind::TypeError, Msg::RefusedName(name)), 16))?;
    rows.push((Cell::Buffer(Seq::copy(alloc, b"ab")?), 10))?;
    Ok(rows)
}

// At a limit of its own units a cell is made, and at one less it is not.
#[test]
fn cells_take_their_units(rt: HostRuntime) -> Result<(), Fail> {
    let alloc = rt.alloc();
    for (cell, want) in cells(alloc)? {
        let mut arena = Arena::new(alloc, want);
        assert!(rt; matches!(arena.alloc_cell(cell), Ok(CellNo(0))), "{want}");
        assert_eq!(rt; arena.used(), want);
    }
    for (cell, want) in cells(alloc)? {
        let mut arena = Arena::new(alloc, want.saturating_sub(1));
        assert!(rt;
            matches!(arena.alloc_cell(cell), Err(ArenaEnd::Full)),
            "{want}"
        );
        assert_eq!(rt; arena.used(), 0);
    }
    Ok(())
}

#[test]
fn index_keys_come_first(rt: HostRuntime) -> Result<(), Fail> {
    let alloc = rt.alloc();
    let made: [&[u8]; 8] = [
        b"b",
        b"10",
        b"a",
        b"4294967295",
        b"2",
        b"1",
        b"01",
        b"4294967294",
    ];
    let want: [&[u8]; 8] = [
        b"1",
        b"2",
        b"10",
        b"4294967294",
        b"b",
        b"a",
        b"4294967295",
        b"01",
    ];
    let props = object(alloc, &made)?;
    let keys = props.keys(alloc)?;
    assert_eq!(rt; keys.len(), want.len());
    for (at, text) in want.iter().enumerate() {
        let text = units(alloc, *text)?;
        assert!(rt;
            keys.get(at)
                .is_some_and(|key| key.as_slice() == text.as_slice()),
            "{at}"
        );
    }
    Ok(())
}

// An event's handle names object 0 of its request too (the second row), and a request's own does not.
#[test]
fn cells_hold_handles(rt: HostRuntime) -> Result<(), Fail> {
    let alloc = rt.alloc();
    let rows = [
        (5, 2, false, 5, 2, true),
        (5, 1, true, 5, 0, true),
        (5, 1, false, 5, 0, false),
        (5, 2, false, 6, 2, false),
        (5, 2, false, 5, 3, false),
    ];
    for (req, obj, event, of, at, want) in rows {
        let mut arena = Arena::new(alloc, 10);
        let no = arena.hand(HandleName { req, obj, event })?;
        assert_eq!(rt; arena.hand(HandleName { req, obj, event })?, no);
        assert!(rt; !arena.held(Req(of), Obj(at)));
        let cell = Cell::Variable(Some(Value::Handle(no)));
        assert!(rt; arena.alloc_cell(cell).is_ok());
        assert_eq!(rt; arena.held(Req(of), Obj(at)), want, "{req} {obj} {of} {at}");
    }
    Ok(())
}
