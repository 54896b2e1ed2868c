//! Flags of columns, and the codec traits at a type of the user's own.
ghost use Rattle.std.specs.Prelude.{ℕ, List, None, ⊤};
ghost use Rattle.mysql_wire_part.specs.Lenenc.{lenenc_spelling, read_lenenc};

use crate::shared::{answer_of, same_in};
use mysql_wire_part::{
    ColumnFlags, Flags, MyDeserialize, MySerialize, ParseBuf, WireError, put_lenenc_str,
};
use std::alloc::{AllocError, Global};
use std::process::Abort;

// Bits of flags, and whether they say that the column is unsigned.
const FLAGS: &[(u16, bool)] = &[
    (0, false),
    (32, true),
    (31, false),
    (63, true),
    (0xFFDF, false),
];

#[test]
fn unsigned_flag(rt: HostRuntime) {
    for (bits, unsigned) in FLAGS {
        let flags = ColumnFlags::from_bits_retain(*bits);
        let found = (flags.contains(ColumnFlags::UNSIGNED_FLAG), flags.bits());
        same_in(&rt, found, (*unsigned, *bits), bits);
    }
}

// A type of the user's own that holds a vector: a name, as a length-encoded string.
#[derive(Drop)]
struct Name {
    bytes: Vec<u8>,
}

impl MySerialize for Name {
    ghost spelling = { λ name. lenenc_spelling name.bytes.items };

    fn serialize(&self, buf: &mut Vec<u8>) -> Result<(), AllocError> {
        put_lenenc_str(buf, &self.bytes)
    }
}

impl<'de> MyDeserialize<'de> for Name {
    const SIZE: Option<usize> = None;

    ghost SIZE = { None };

    type Ctx = ();

    ghost Seen = { List ℕ };

    ghost seen = { λ name. name.bytes.items };

    ghost reads = { λ _ bytes. read_lenenc bytes };

    ghost takes_memory = { λ _ _. ⊤ };

    fn deserialize(alloc: Global, _ctx: (), buf: &mut ParseBuf<'de>) -> Result<Name, WireError> {
        let mut rest = *buf;
        let text = rest.eat_lenenc_str()?;
        let bytes = Vec::from_slice(alloc, text)?;
        *buf = rest;
        Ok(Name { bytes })
    }
}

// What is written, by the bound alone.
fn written<T: MySerialize>(rt: &impl Abort, alloc: Global, thing: &T) -> Vec<u8> {
    let mut buf = Vec::new(alloc);
    answer_of(rt, thing.serialize(&mut buf));
    buf
}

// What is read, by the bound alone.
fn read<'de, T: MyDeserialize<'de, Ctx = ()> + Drop>(
    rt: &impl Abort,
    alloc: Global,
    buf: &mut ParseBuf<'de>,
) -> T {
    answer_of(rt, T::deserialize(alloc, (), buf))
}

#[test]
fn a_type_of_the_users_own(rt: HostRuntime) {
    let mut buf = ParseBuf(b"\x03abc*");
    let name: Name = read(&rt, rt.alloc(), &mut buf);
    same_in(
        &rt,
        (name.bytes.as_slice(), buf.0),
        (b"abc", b"*"),
        &"a name",
    );
    let form = written(&rt, rt.alloc(), &name);
    same_in(&rt, form.as_slice(), b"\x03abc", &"a form");
}
