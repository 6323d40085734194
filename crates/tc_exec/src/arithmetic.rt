//! Arithmetic on words of 32 bits.

ghost use Rattle.std.specs.Prelude.{◌≡◌, ◌<◌};
ghost use Rattle.tc_exec.specs.Arithmetic as arithmetic;
ghost use Rattle.tc_isa.specs.declared.instr.RegOp.TheVariants.{Mulh, Mulhsu};

use tc_isa::instr::{Cond, ImmOp, RegOp};

fn less_signed(a: u32, b: u32) -> bool
    ensures { result ≡ arithmetic.less_signed a b }
{
    a.cast_signed() < b.cast_signed()
}

/// The high 32 bits of a product of 64 bits.
fn high_half(product: i64) -> u32
    ensures { result ≡ arithmetic.high_half product }
{
    (product.cast_unsigned() >> 32) as u32
}

fn product_signed(a: u32, b: u32) -> u32
    ensures { result ≡ arithmetic.value_of Mulh a b }
{
    high_half(i64::from(a.cast_signed()) * i64::from(b.cast_signed()))
}

fn product_mixed(a: u32, b: u32) -> u32
    ensures { result ≡ arithmetic.value_of Mulhsu a b }
{
    high_half(i64::from(a.cast_signed()) * i64::from(b))
}

fn quotient(a: u32, b: u32) -> u32
    ensures { result ≡ arithmetic.quotient a b }
{
    if b == 0 {
        return u32::MAX;
    }
    let quotient = a.cast_signed().wrapping_div(b.cast_signed());
    quotient.cast_unsigned()
}

fn remainder(a: u32, b: u32) -> u32
    ensures { result ≡ arithmetic.remainder a b }
{
    if b == 0 {
        return a;
    }
    let remainder = a.cast_signed().wrapping_rem(b.cast_signed());
    remainder.cast_unsigned()
}

/// What an operation on two numbers gives. It stands in the loop over turns, where a call would
/// cost more than most operations do.
#[inline(always)]
pub fn value_of(op: RegOp, a: u32, b: u32) -> u32
    ensures { result ≡ arithmetic.value_of op a b }
{
    match op {
        RegOp::Add => a.wrapping_add(b),
        RegOp::Sub => a.wrapping_sub(b),
        RegOp::Sll => a << (b % 32),
        RegOp::Slt => less_signed(a, b) as u32,
        RegOp::Sltu => (a < b) as u32,
        RegOp::Xor => a ^ b,
        RegOp::Srl => a >> (b % 32),
        RegOp::Sra => (a.cast_signed() >> (b % 32)).cast_unsigned(),
        RegOp::Or => a | b,
        RegOp::And => a & b,
        RegOp::Mul => a.wrapping_mul(b),
        RegOp::Mulh => product_signed(a, b),
        RegOp::Mulhsu => product_mixed(a, b),
        RegOp::Mulhu => ((u64::from(a) * u64::from(b)) >> 32) as u32,
        RegOp::Div => quotient(a, b),
        RegOp::Divu => if b == 0 { u32::MAX } else { a / b },
        RegOp::Rem => remainder(a, b),
        RegOp::Remu => if b == 0 { a } else { a % b },
    }
}

/// The register operation that an operation with an immediate performs.
pub fn op_of_imm(op: ImmOp) -> RegOp
    ensures { result ≡ arithmetic.op_of_imm op }
{
    match op {
        ImmOp::Addi => RegOp::Add,
        ImmOp::Slti => RegOp::Slt,
        ImmOp::Sltiu => RegOp::Sltu,
        ImmOp::Xori => RegOp::Xor,
        ImmOp::Ori => RegOp::Or,
        ImmOp::Andi => RegOp::And,
        ImmOp::Slli => RegOp::Sll,
        ImmOp::Srli => RegOp::Srl,
        ImmOp::Srai => RegOp::Sra,
    }
}

/// Whether a branch on two numbers is taken.
pub fn is_taken(cond: Cond, a: u32, b: u32) -> bool
    ensures { result ≡ arithmetic.is_taken cond a b }
{
    match cond {
        Cond::Eq => a == b,
        Cond::Ne => a != b,
        Cond::Lt => less_signed(a, b),
        Cond::Ge => !less_signed(a, b),
        Cond::Ltu => a < b,
        Cond::Geu => a >= b,
    }
}
