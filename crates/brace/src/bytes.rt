// The bytes of symbols: a quintet's character as a capital, a copied byte itself.
ghost use Rattle.std.specs.Prelude.{◌≡◌, ◌++◌, ◌≤◌, length, drop};
ghost use Rattle.alphabet.specs.Alphabet.{brace};
ghost use Rattle.copying.specs.Symbols.{capital, byte_of, bytes_of};

// The byte that is written for a symbol. As byte_of of altdude, which has another alphabet and small letters: one function would be
// passed both, and be no plainer.
#[tactic(auto, unfolding(copying::specs::Symbols::byte_of))]
fn byte_of(symbol: u8) -> u8
    ensures { result ≡ byte_of brace capital symbol }
{
    if symbol < 32 {
        return ascii::capital_form(alphabet::brace_character(symbol));
    }
    symbol
}

// Stores the bytes of a row of symbols, and answers how many.
pub(crate) fn put_bytes(symbols: &[u8], label: &mut [u8]) -> usize
    requires { length symbols.now ≤ length label.old }
    ensures value { result ≡ length symbols.now }
    ensures label_after { label.new ≡ bytes_of brace capital symbols.now ++ drop (length symbols.now) label.old }
{
    for (i, &symbol) in symbols.iter().enumerate() {
        label[i] = byte_of(symbol);
    }
    symbols.len()
}
