// The signature in symbols.
ghost use Rattle.std.specs.Prelude.{◌+◌, ◌≤◌, length};
ghost use Rattle.basis.specs.Internal.{Stored};
ghost use Rattle.brace_format.specs.Signature.{signature};

// The signature as symbols: a hyphen and three quintets.
const SIGNATURE: [u8; 4] = [45, 6, 22, 7];

// Stores the signature at an index, and answers the index after it.
pub(crate) fn put_signature(symbols: &mut [u8], at: usize) -> usize
    requires { at + 4 ≤ length symbols.old }
    ensures { Stored symbols.old at signature symbols.new result }
{
    let end = at + 4;
    symbols[at..end].copy_from_slice(&SIGNATURE);
    end
}
