// References by their places: a place is a symbol and its origin in one number.
ghost use Rattle.std.specs.Prelude.{◌≡◌, ◌<◌};
ghost use Rattle.terms.specs.Places.{symbol_limit};
ghost use Rattle.terms.specs.References.{origin_as, reference_at, symbol_at, apart_at};

// How many numbers a place has room for as its origin's: a power of two, so that a shift takes it off.
const ORIGINS: u32 = 4;

// Where a symbol comes from: made by `ref` on this path, a variable's when the path began, or any other.
#[derive(Clone, Copy)]
pub enum Origin {
    Other = 1,
    Initial = 2,
    Made = 3,
}

// What the origins of two variables add up to.
const TWO_VARIABLES: u32 = 2 * (Origin::Initial as u32);

// The place of a reference.
pub fn reference(symbol: u32, origin: Origin) -> u32
    requires { symbol < symbol_limit }
    ensures { result ≡ reference_at (origin_as origin) symbol }
{
    ORIGINS * symbol + origin as u32
}

// The symbol of the reference at a place.
pub fn symbol_of(place: u32) -> u32
    ensures { result ≡ symbol_at place }
{
    place / ORIGINS
}

// The references at two places are certainly different cells: different symbols, of which `ref` made one on this path, and the other too or it was a
// variable's when the path began. No other two origins add up to more than those of two variables.
pub fn apart(q: u32, s: u32) -> bool
    ensures { result ≡ apart_at q s }
{
    if q % ORIGINS + s % ORIGINS <= TWO_VARIABLES {
        return false;
    }
    q / ORIGINS != s / ORIGINS
}
