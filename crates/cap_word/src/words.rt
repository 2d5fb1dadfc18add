ghost use Rattle.std.specs.Prelude.{◌≡◌, ◌^◌};
ghost use Rattle.cap_word.specs.Word as word;

/// Returns the sum modulo 2^32 (RISC-V unprivileged manual, "RV32I", ADD).
#[tactic(auto, unfolding(crate::specs::Word::add))]
pub fn add(a: u32, b: u32) -> u32
    ensures { result ≡ word.add a b }
{
    a.wrapping_add(b)
}

/// Returns the difference modulo 2^32 ("RV32I", SUB).
#[tactic(auto, unfolding(crate::specs::Word::sub))]
pub fn sub(a: u32, b: u32) -> u32
    ensures { result ≡ word.sub a b }
{
    a.wrapping_sub(b)
}

/// Returns 1 if `a` is below `b`, both signed, and 0 otherwise ("RV32I", SLT).
#[tactic(auto, unfolding(crate::specs::Word::slt, crate::specs::Word::flag))]
pub fn slt(a: u32, b: u32) -> u32
    ensures { result ≡ word.slt a b }
{
    u32::from(signed(a) < signed(b))
}

/// Returns 1 if `a` is below `b`, and 0 otherwise ("RV32I", SLTU).
#[tactic(auto, unfolding(crate::specs::Word::sltu, crate::specs::Word::flag))]
pub fn sltu(a: u32, b: u32) -> u32
    ensures { result ≡ word.sltu a b }
{
    u32::from(a < b)
}

/// Returns `a` shifted left by `b` modulo 32, with zeros from the right ("RV32I", SLL).
#[tactic(auto, unfolding(crate::specs::Word::sll))]
pub fn sll(a: u32, b: u32) -> u32
    ensures { result ≡ word.sll a b }
{
    a.wrapping_shl(b)
}

/// Returns `a` shifted right by `b` modulo 32, with zeros from the left ("RV32I", SRL).
#[tactic(auto, unfolding(crate::specs::Word::srl))]
pub fn srl(a: u32, b: u32) -> u32
    ensures { result ≡ word.srl a b }
{
    a.wrapping_shr(b)
}

/// Returns `a` shifted right by `b` modulo 32, with copies of its sign from the left ("RV32I", SRA).
#[tactic(auto, unfolding(crate::specs::Word::sra))]
pub fn sra(a: u32, b: u32) -> u32
    ensures { result ≡ word.sra a b }
{
    word_of(signed(a).wrapping_shr(b))
}

/// Returns the low word of the product ("M", MUL).
#[tactic(auto, unfolding(crate::specs::Word::mul))]
pub fn mul(a: u32, b: u32) -> u32
    ensures { result ≡ word.mul a b }
{
    a.wrapping_mul(b)
}

/// Returns the high word of the product of both as signed numbers ("M", MULH).
#[tactic(auto, unfolding(crate::specs::Word::mulh))]
pub fn mulh(a: u32, b: u32) -> u32
    ensures { result ≡ word.mulh a b }
{
    high(i64::from(signed(a)) * i64::from(signed(b)))
}

/// Returns the high word of the product of `a` as a signed number and `b` as an unsigned one ("M",
/// MULHSU).
#[tactic(auto, unfolding(crate::specs::Word::mulhsu))]
pub fn mulhsu(a: u32, b: u32) -> u32
    ensures { result ≡ word.mulhsu a b }
{
    high(i64::from(signed(a)) * i64::from(b))
}

/// Returns the high word of the unsigned product ("M", MULHU).
#[tactic(auto, unfolding(crate::specs::Word::mulhu))]
pub fn mulhu(a: u32, b: u32) -> u32
    ensures { result ≡ word.mulhu a b }
{
    (u64::from(a) * u64::from(b) >> 32) as u32
}

/// Returns the quotient of both as signed numbers, rounded toward zero ("M", DIV). Division by 0 gives
/// all ones, and -2^31 by -1 gives -2^31.
#[tactic(auto, unfolding(crate::specs::Word::div))]
pub fn div(a: u32, b: u32) -> u32
    ensures { result ≡ word.div a b }
{
    if b == 0 {
        u32::MAX
    } else {
        word_of(signed(a).wrapping_div(signed(b)))
    }
}

/// Returns the unsigned quotient ("M", DIVU). Division by 0 gives all ones.
#[tactic(auto, unfolding(crate::specs::Word::divu))]
pub fn divu(a: u32, b: u32) -> u32
    ensures { result ≡ word.divu a b }
{
    if b == 0 { u32::MAX } else { a / b }
}

/// Returns the remainder of DIV, with the sign of the dividend ("M", REM). By 0 it is the dividend,
/// and of -2^31 by -1 it is 0.
#[tactic(auto, unfolding(crate::specs::Word::rem))]
pub fn rem(a: u32, b: u32) -> u32
    ensures { result ≡ word.rem a b }
{
    if b == 0 {
        a
    } else {
        word_of(signed(a).wrapping_rem(signed(b)))
    }
}

/// Returns the remainder of DIVU ("M", REMU). By 0 it is the dividend.
#[tactic(auto, unfolding(crate::specs::Word::remu))]
pub fn remu(a: u32, b: u32) -> u32
    ensures { result ≡ word.remu a b }
{
    if b == 0 { a } else { a % b }
}

// A word as a signed number.
fn signed(a: u32) -> i32
    ensures { result ≡ word.signed a }
{
    a.cast_signed()
}

// The word of a signed number.
fn word_of(z: i32) -> u32
    ensures { result ≡ word.word_of z }
{
    z.cast_unsigned()
}

// The high word of a product.
fn high(product: i64) -> u32
    ensures { result ≡ word.word_of (word.floor_div product (2 ^ 32)) }
{
    word_of((product >> 32) as i32)
}
