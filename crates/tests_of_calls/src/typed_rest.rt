// The rest of a column: the offsets that Arrow wants for it, and what it does not keep.
use jsonb::{Error, Node, Number, NumberItem};
use jsonb_typed::push_text;
use std::test::Fail;
use typed_vector::{Texts, Typed};

#[test]
fn a_signed_zero_given_as_a_number_is_not_kept(rt: HostRuntime) -> Result<(), Fail> {
    let mut column = Texts::new(rt.alloc())?;
    let given = Node::Number(NumberItem::from_number(Number::Int64(0)));
    let refused = push_text(rt.alloc(), &mut column, Some(given));
    assert!(rt; refused == Err(Error::InvalidJsonb));
    let stored = Node::Number(NumberItem::from_bytes(&[0x40, 0])?);
    push_text(rt.alloc(), &mut column, Some(stored))?;
    Ok(())
}

#[test]
fn offsets_of_all_rows(rt: HostRuntime) -> Result<(), Fail> {
    let mut column = Typed::new(rt.alloc(), 0u64)?;
    column.push_other(b"ab")?;
    column.push_value(7)?;
    column.push_absent()?;
    column.push_other(b"cde")?;
    let mut offsets = [9; 5];
    column.parts().rest.write_offsets(&mut offsets);
    assert!(rt; offsets == [0, 2, 2, 2, 5]);
    Ok(())
}
