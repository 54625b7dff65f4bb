//! The byte between two fields.

ghost use Rattle.std.specs.Prelude.{◌≡◌, ◌≢◌, IfSome, IsSome};

/// A byte that may stand between two fields: any but a line feed, a carriage return and a quote.
#[derive(Clone, Copy, Debug)]
pub struct Delimiter {
    /// The byte.
    pub byte: u8,
    pub ghost no_feed: { byte ≢ 10 },
    pub ghost no_return: { byte ≢ 13 },
    pub ghost no_quote: { byte ≢ 34 },
}

impl Delimiter {
    /// The delimiter of this byte, if it may be one.
    pub fn new(byte: u8) -> Option<Delimiter>
        ensures value { IfSome result (λ delimiter. delimiter.byte ≡ byte) }
        ensures some { byte ≢ 10 → byte ≢ 13 → byte ≢ 34 → IsSome result }
    {
        match byte {
            b'\n' | b'\r' | b'"' => None,
            _ => Some(Delimiter { byte }),
        }
    }
}
