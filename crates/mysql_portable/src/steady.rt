//! Texts that both modes and every character set read alike.
ghost use Rattle.std.specs.Prelude.{◌≡◌, ◌↔◌, None};
ghost use Rattle.mysql_portable.specs.Steady.{first_unsteady, is_steady, IsSteady};

/// The index of the first byte of a text that isn't steady: a backslash, or a byte from 128 on.
///
/// There is none if and only if the text is steady. Then neither the mode nor the character set of
/// a connection changes how a server reads the text ([`steady_texts`](crate::laws::steady_texts)).
/// The call allocates nothing.
#[tactic(auto, using(crate::proofs::SteadyLemmas::none_unsteady))]
pub fn first_unsteady(text: &[u8]) -> Option<usize>
    ensures first { result ≡ first_unsteady text.now }
    ensures none { (result ≡ None) ↔ IsSteady text.now }
{
    unsteady_position(text)
}

// The index of the first byte that isn't steady.
fn unsteady_position(text: &[u8]) -> Option<usize>
    ensures { result ≡ first_unsteady text.now }
{
    text.iter().position(|byte| !is_steady(*byte))
}

// Whether the byte is ASCII and no backslash.
fn is_steady(byte: u8) -> bool
    ensures { result ≡ is_steady byte }
{
    byte < 128 && byte != b'\\'
}
