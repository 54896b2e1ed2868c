//! Which borrowed fragment isn't steady: a byte from 128 on is none of an ASCII text.
use mysql_fragments::{Fragment, FragmentRef, RowsRef, first_unsteady_fragment};
use mysql_values::value::ValueRef;
use std::alloc::AllocError;

#[test]
fn a_name_is_unsteady_and_values_never(rt: HostRuntime) -> Result<(), AllocError> {
    let cells = [ValueRef::Bytes(&[0xC3, 0xA9]), ValueRef::NULL];
    let Ok(rows) = RowsRef::new(&cells, 2) else {
        panic!(&rt; "one row of two cells");
    };
    let ascii = Fragment::Identifier(Vec::from_slice(rt.alloc(), b"a`b")?);
    let other = Fragment::Identifier(Vec::from_slice(rt.alloc(), &[0xC3, 0xA9])?);
    let steady = [
        FragmentRef::Value(cells[0]),
        FragmentRef::List(&cells),
        FragmentRef::Rows(rows),
        FragmentRef::Owned(&ascii),
    ];
    assert_eq!(&rt; first_unsteady_fragment(&steady), None);
    let unsteady = [
        steady[0],
        FragmentRef::Owned(&other),
        FragmentRef::Owned(&other),
    ];
    assert_eq!(&rt; first_unsteady_fragment(&unsteady), Some(1));
    Ok(())
}
