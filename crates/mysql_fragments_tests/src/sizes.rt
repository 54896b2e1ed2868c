//! How large items and fragments are: long lists of them are kept.
use mysql_fragments::{Fragment, Item};
use mysql_values::value::Value;

// A value and a tag of 8 bytes: no other kind takes more.
const _: () = prove!(size_of::<Item>() == size_of::<Value>() + 8);

const _: () = prove!(size_of::<Fragment>() == size_of::<Value>() + 8);
