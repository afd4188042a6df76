// The total order of IEEE 754-2019, 5.10, on 64-bit patterns, by the clause's cases; and patterns of floats.
ghost use Rattle.std.specs.Prelude.{◌≡◌, ◌%◌, ◌^◌, leb};
ghost use Rattle.exact.specs.Float.{bits};
ghost use Rattle.exact.specs.Pattern.{exponent, digits};
ghost use Rattle.numeric.specs.declared.order.Class.TheVariants.{Number, Signaling, Quiet};
ghost use Rattle.numeric.specs.Order.{payload, sign_of, class_of, total_order, pattern_of};

// The sign of a pattern.
#[derive(Clone, Copy)]
pub enum Sign {
    Minus,
    Plus,
}

// What a pattern stands for, its sign apart (3.4, 6.2.1). A number here is finite and not 0.
#[derive(Clone, Copy)]
pub enum Class {
    Zero,
    Number,
    Infinity,
    Signaling,
    Quiet,
}

// Bit 63.
#[tactic(auto, unfolding(crate::specs::Order::sign_of, exact::specs::Pattern::sign))]
pub fn sign_of(b: u64) -> Sign
    ensures { result ≡ sign_of b }
{
    if b < 0x8000_0000_0000_0000 {
        Sign::Plus
    } else {
        Sign::Minus
    }
}

// The exponent field, bits 62 to 52.
fn exponent_of(b: u64) -> u64
    ensures { result ≡ exponent b }
{
    b / 0x10_0000_0000_0000 % 0x800
}

// The digits below the leading one, bits 51 to 0.
fn digits_of(b: u64) -> u64
    ensures { result ≡ digits b }
{
    b % 0x10_0000_0000_0000
}

// A NaN's digits below the first, which tells signaling from quiet: bits 50 to 0.
fn payload_of(b: u64) -> u64
    ensures { result ≡ payload b }
{
    b % 0x8_0000_0000_0000
}

// The class: by the exponent field, and then by the digits.
pub fn class_of(b: u64) -> Class
    ensures { result ≡ class_of b }
{
    let e = exponent_of(b);
    let d = digits_of(b);
    match e {
        0 => { if d == 0 { Class::Zero } else { Class::Number } }
        0x7FF => {
            if d == 0 {
                Class::Infinity
            } else if d < 0x8_0000_0000_0000 {
                Class::Signaling
            } else {
                Class::Quiet
            }
        }
        _ => Class::Number,
    }
}

// Two numbers without their signs: whether |a| is at most |b|. The greater exponent has the greater magnitude, and of like exponents the greater digits.
fn magnitudes(a: u64, b: u64) -> bool
    ensures { result ≡ leb (a % 2 ^ 63) (b % 2 ^ 63) }
{
    let e = exponent_of(a);
    let f = exponent_of(b);
    let c = digits_of(a);
    let d = digits_of(b);
    (e < f) | ((e == f) & (c <= d))
}

// The clause with x = |a| a number and y = |b| of the class y.
fn number_before(a: u64, b: u64, y: Class) -> bool
    requires { (Number ≡ class_of a) × (y ≡ class_of b) }
    ensures { result ≡ total_order (a % 2 ^ 63) (b % 2 ^ 63) }
{
    match y {
        // x > y (b)
        Class::Zero => false,
        // x < y (a), x > y (b), or one datum (c)
        Class::Number => magnitudes(a, b),
        // x < y (a)
        Class::Infinity => true,
        // a number comes before a NaN (d 2)
        Class::Signaling => true,
        Class::Quiet => true,
    }
}

// The same with x a signaling NaN.
fn signaling_before(a: u64, b: u64, y: Class) -> bool
    requires { (Signaling ≡ class_of a) × (y ≡ class_of b) }
    ensures { result ≡ total_order (a % 2 ^ 63) (b % 2 ^ 63) }
{
    match y {
        // a NaN comes after what is none (d 2)
        Class::Zero => false,
        Class::Number => false,
        Class::Infinity => false,
        // the lesser payload comes first (d 3 iii)
        Class::Signaling => payload_of(a) <= payload_of(b),
        // signaling comes before quiet (d 3 ii)
        Class::Quiet => true,
    }
}

// The same with x a quiet NaN.
fn quiet_before(a: u64, b: u64, y: Class) -> bool
    requires { (Quiet ≡ class_of a) × (y ≡ class_of b) }
    ensures { result ≡ total_order (a % 2 ^ 63) (b % 2 ^ 63) }
{
    match y {
        // a NaN comes after what is none (d 2)
        Class::Zero => false,
        Class::Number => false,
        Class::Infinity => false,
        // signaling comes before quiet (d 3 ii)
        Class::Signaling => false,
        // the lesser payload comes first (d 3 iii)
        Class::Quiet => payload_of(a) <= payload_of(b),
    }
}

// Two patterns of like sign, as if it were plus: the clause with x = |a| and y = |b|.
fn unsigned_before(a: u64, b: u64) -> bool
    ensures { result ≡ total_order (a % 2 ^ 63) (b % 2 ^ 63) }
{
    let x = class_of(a);
    let y = class_of(b);
    match x {
        // 0 is below the other numbers and infinity (a), equal to 0 (c), and comes before a NaN (d 2)
        Class::Zero => true,
        Class::Number => number_before(a, b, y),
        Class::Infinity => match y {
            // x > y (b)
            Class::Zero => false,
            Class::Number => false,
            // one datum (c)
            Class::Infinity => true,
            // infinity comes before a NaN (d 2)
            Class::Signaling => true,
            Class::Quiet => true,
        },
        Class::Signaling => signaling_before(a, b, y),
        Class::Quiet => quiet_before(a, b, y),
    }
}

// Whether the pattern a comes before b or is b.
pub fn before(a: u64, b: u64) -> bool
    ensures { result ≡ total_order a b }
{
    let s = sign_of(a);
    let t = sign_of(b);
    match s {
        Sign::Minus => match t {
            // like signs, minus: the reverse of the order without the signs (a, b, c 3, d 1, d 3)
            Sign::Minus => unsigned_before(b, a),
            // unlike signs: x < y (a), -0 before +0 (c 1), a negative NaN first (d 1), a positive NaN last (d 2), a negative NaN before a positive one (d 3 i)
            Sign::Plus => true,
        },
        Sign::Plus => match t {
            // unlike signs: the reverse of the case above (b, c 2, d)
            Sign::Minus => false,
            // like signs, plus
            Sign::Plus => unsigned_before(a, b),
        },
    }
}

// The bits of x, and of a NaN the positive quiet NaN of payload 0.
pub fn pattern(x: f64) -> u64
    ensures { result ≡ pattern_of x }
{
    if x != x {
        return 0x7FF8_0000_0000_0000;
    }
    f64::to_bits(x)
}

// The float whose bits are b. `f64::from_bits` is not defined at a NaN's bits, so a NaN is computed.
pub fn float(b: u64) -> f64
    ensures { result ≡ bits b }
{
    if b % 0x8000_0000_0000_0000 > 0x7FF0_0000_0000_0000 {
        return 0.0 / 0.0;
    }
    f64::from_bits(b)
}
