//! What single instructions do, worked out by hand from the RISC-V Unprivileged ISA, RV32IM. The
//! words are what an assembler gives for the texts beside them. Each is all the code of an image of
//! its own.
//!
//! x5, x11 and x17 have one number before, and x10 and x12 another.

mod guards;

use crate::parts::{check_row, image_of_words};
use Call::Sleep;
use Effect::{Calls, Exits, Faults, Goes, Puts};
use Fault::{BadCall, BadLock, Break, Fetch, Illegal, JumpTarget, Load, Misaligned, Store};
use Region::{Stack, Text};
use std::alloc::{AllocError, Global};
use std::test::Fail;
use tc_elf::image::{Image, Region};
use tc_exec::code::Code;
use tc_exec::outcome::{Act, Call, Put, Want};
use tc_exec::step::{act, lock_wanted, wants};
use tc_isa::fault::Fault;
use tc_isa::held::Held;
use tc_isa::reg::Reg;
use tc_isa::regs::Regs;

/// Where the one word of code lies, unless a table says otherwise.
const CODE: u32 = 0x0001_0054;

const NEXT: u32 = CODE + 4;

const STACK: u32 = 0x7fff_c000;

/// The address of the stack's last word.
const TOP: u32 = 0x7fff_fffc;

/// The least and the greatest number in two's complement.
const LEAST: u32 = 0x8000_0000;

const MOST: u32 = 0x7fff_ffff;

const ONES: u32 = 0xffff_ffff;

/// The number that is stored.
const STORED: u32 = 0x1234_5678;

/// What an instruction does to the registers that it is given.
#[derive(Clone, Copy)]
enum Effect {
    /// A register gets a value, and the program counter another.
    Goes(u32, u32, u32),
    /// A store at an address of the stack, of a number of bytes, and the next instruction.
    Puts(u32, u32, u32),
    /// A call, its answer in x10, and the next instruction.
    Calls(Call, u32),
    /// EXIT, with all registers as they were.
    Exits,
    Faults(Fault),
}

/// A word, its address, x11 or x17, x12 or x10, and the effect.
type Row = (u32, u32, u32, u32, Effect);

static VALUES: [Row; 68] = [
    (0xffff_f537, CODE, 0, 0, Goes(10, 0xffff_f000, NEXT)), // lui x10, 0xfffff
    (0x8000_0537, CODE, 0, 0, Goes(10, LEAST, NEXT)), // lui x10, 0x80000
    (0x0000_1537, CODE, 0, 0, Goes(10, 0x1000, NEXT)), // lui x10, 1
    (0x0000_0517, CODE, 0, 0, Goes(10, CODE, NEXT)), // auipc x10, 0
    (0x0000_1517, CODE, 0, 0, Goes(10, 0x1_1054, NEXT)), // auipc x10, 1
    (0xffff_f517, CODE, 0, 0, Goes(10, 0xf054, NEXT)), // auipc x10, 0xfffff
    (0x8000_0517, CODE, 0, 0, Goes(10, 0x8001_0054, NEXT)), // auipc x10, 0x80000
    (0xfff5_8513, CODE, 0, 0, Goes(10, ONES, NEXT)), // addi x10, x11, -1
    (0x0015_8513, CODE, ONES, 0, Goes(10, 0, NEXT)), // addi x10, x11, 1
    (0x7ff5_8513, CODE, MOST, 0, Goes(10, 0x8000_07fe, NEXT)), // addi x10, x11, 2047
    (0x8005_8513, CODE, 0x800, 0, Goes(10, 0, NEXT)), // addi x10, x11, -2048
    (0xfff5_a513, CODE, 0xffff_fffe, 0, Goes(10, 1, NEXT)), // slti x10, x11, -1
    (0xfff5_a513, CODE, ONES, 0, Goes(10, 0, NEXT)), // slti x10, x11, -1
    (0xfff5_a513, CODE, 0, 0, Goes(10, 0, NEXT)), // slti x10, x11, -1
    (0x7ff5_a513, CODE, LEAST, 0, Goes(10, 1, NEXT)), // slti x10, x11, 2047
    (0x8005_a513, CODE, MOST, 0, Goes(10, 0, NEXT)), // slti x10, x11, -2048
    (0x8005_a513, CODE, 0xffff_f7ff, 0, Goes(10, 1, NEXT)), // slti x10, x11, -2048
    (0xfff5_b513, CODE, 0, 0, Goes(10, 1, NEXT)), // sltiu x10, x11, -1
    (0xfff5_b513, CODE, ONES, 0, Goes(10, 0, NEXT)), // sltiu x10, x11, -1
    (0x0015_b513, CODE, 0, 0, Goes(10, 1, NEXT)), // sltiu x10, x11, 1
    (0x0015_b513, CODE, 1, 0, Goes(10, 0, NEXT)), // sltiu x10, x11, 1
    (0x8005_b513, CODE, MOST, 0, Goes(10, 1, NEXT)), // sltiu x10, x11, -2048
    (
        0xfff5_c513,
        CODE,
        0xf0f_00ff,
        0,
        Goes(10, 0xf0f0_ff00, NEXT),
    ), // xori x10, x11, -1
    (0x7ff5_c513, CODE, 0x7fff, 0, Goes(10, 0x7800, NEXT)), // xori x10, x11, 2047
    (0x8005_e513, CODE, 0x7ff, 0, Goes(10, ONES, NEXT)), // ori x10, x11, -2048
    (0x00f5_e513, CODE, 0xf0, 0, Goes(10, 0xff, NEXT)), // ori x10, x11, 15
    (0xfff5_f513, CODE, STORED, 0, Goes(10, STORED, NEXT)), // andi x10, x11, -1
    (0x7ff5_f513, CODE, ONES, 0, Goes(10, 0x7ff, NEXT)), // andi x10, x11, 2047
    (0x8005_f513, CODE, ONES, 0, Goes(10, 0xffff_f800, NEXT)), // andi x10, x11, -2048
    (
        0x0005_9513,
        CODE,
        0x8000_0001,
        0,
        Goes(10, 0x8000_0001, NEXT),
    ), // slli x10, x11, 0
    (0x01f5_9513, CODE, ONES, 0, Goes(10, LEAST, NEXT)), // slli x10, x11, 31
    (0x0015_9513, CODE, 0x8000_0001, 0, Goes(10, 2, NEXT)), // slli x10, x11, 1
    (
        0x0005_d513,
        CODE,
        0x8000_0001,
        0,
        Goes(10, 0x8000_0001, NEXT),
    ), // srli x10, x11, 0
    (0x01f5_d513, CODE, ONES, 0, Goes(10, 1, NEXT)), // srli x10, x11, 31
    (0x0045_d513, CODE, LEAST, 0, Goes(10, 0x800_0000, NEXT)), // srli x10, x11, 4
    (
        0x4005_d513,
        CODE,
        0x8000_0001,
        0,
        Goes(10, 0x8000_0001, NEXT),
    ), // srai x10, x11, 0
    (0x41f5_d513, CODE, LEAST, 0, Goes(10, ONES, NEXT)), // srai x10, x11, 31
    (0x41f5_d513, CODE, MOST, 0, Goes(10, 0, NEXT)), // srai x10, x11, 31
    (0x4045_d513, CODE, LEAST, 0, Goes(10, 0xf800_0000, NEXT)), // srai x10, x11, 4
    (0x4015_d513, CODE, ONES, 0, Goes(10, ONES, NEXT)), // srai x10, x11, 1
    (0x00c5_8533, CODE, ONES, 1, Goes(10, 0, NEXT)), // add x10, x11, x12
    (0x00c5_8533, CODE, MOST, 1, Goes(10, LEAST, NEXT)), // add x10, x11, x12
    (0x00c5_8533, CODE, LEAST, LEAST, Goes(10, 0, NEXT)), // add x10, x11, x12
    (0x40c5_8533, CODE, 0, 1, Goes(10, ONES, NEXT)), // sub x10, x11, x12
    (0x40c5_8533, CODE, LEAST, 1, Goes(10, MOST, NEXT)), // sub x10, x11, x12
    (0x40c5_8533, CODE, 5, 5, Goes(10, 0, NEXT)), // sub x10, x11, x12
    (0x00c5_9533, CODE, 1, 0x1f, Goes(10, LEAST, NEXT)), // sll x10, x11, x12
    (0x00c5_9533, CODE, STORED, 0x20, Goes(10, STORED, NEXT)), // sll x10, x11, x12
    (0x00c5_9533, CODE, 3, ONES, Goes(10, LEAST, NEXT)), // sll x10, x11, x12
    (0x00c5_a533, CODE, LEAST, MOST, Goes(10, 1, NEXT)), // slt x10, x11, x12
    (0x00c5_a533, CODE, MOST, LEAST, Goes(10, 0, NEXT)), // slt x10, x11, x12
    (0x00c5_a533, CODE, ONES, 0, Goes(10, 1, NEXT)), // slt x10, x11, x12
    (0x00c5_a533, CODE, 0, ONES, Goes(10, 0, NEXT)), // slt x10, x11, x12
    (0x00c5_a533, CODE, 7, 7, Goes(10, 0, NEXT)), // slt x10, x11, x12
    (0x00c5_b533, CODE, LEAST, MOST, Goes(10, 0, NEXT)), // sltu x10, x11, x12
    (0x00c5_b533, CODE, MOST, LEAST, Goes(10, 1, NEXT)), // sltu x10, x11, x12
    (0x00c5_b533, CODE, 0, ONES, Goes(10, 1, NEXT)), // sltu x10, x11, x12
    (0x00c5_b533, CODE, ONES, ONES, Goes(10, 0, NEXT)), // sltu x10, x11, x12
    (
        0x00c5_c533,
        CODE,
        0xff00_ff00,
        0xff0_0ff0,
        Goes(10, 0xf0f0_f0f0, NEXT),
    ), // xor x10, x11, x12
    (0x00c5_d533, CODE, LEAST, 0x1f, Goes(10, 1, NEXT)), // srl x10, x11, x12
    (0x00c5_d533, CODE, LEAST, 0x21, Goes(10, 0x4000_0000, NEXT)), // srl x10, x11, x12
    (0x00c5_d533, CODE, ONES, 0x40, Goes(10, ONES, NEXT)), // srl x10, x11, x12
    (0x40c5_d533, CODE, LEAST, 0x1f, Goes(10, ONES, NEXT)), // sra x10, x11, x12
    (0x40c5_d533, CODE, LEAST, 0x21, Goes(10, 0xc000_0000, NEXT)), // sra x10, x11, x12
    (0x40c5_d533, CODE, MOST, 0x1f, Goes(10, 0, NEXT)), // sra x10, x11, x12
    (0x40c5_d533, CODE, LEAST, 0x20, Goes(10, LEAST, NEXT)), // sra x10, x11, x12
    (
        0x00c5_e533,
        CODE,
        0xff00_ff00,
        0xff0_0ff0,
        Goes(10, 0xfff0_fff0, NEXT),
    ), // or x10, x11, x12
    (
        0x00c5_f533,
        CODE,
        0xff00_ff00,
        0xff0_0ff0,
        Goes(10, 0xf00_0f00, NEXT),
    ), // and x10, x11, x12
];

static JUMPS: [Row; 39] = [
    (0x0080_056f, CODE, 0, 0, Goes(10, CODE + 4, CODE + 8)), // jal x10, 8
    (0x0000_056f, CODE, 0, 0, Goes(10, CODE + 4, CODE)), // jal x10, 0
    (0xff9f_f06f, CODE, 0, 0, Goes(0, 0, CODE - 8)), // jal x0, -8
    (0x0020_056f, CODE, 0, 0, Faults(JumpTarget)), // jal x10, 2
    (0x0040_056f, 0xffff_fffc, 0, 0, Goes(10, 0, 0)), // jal x10, 4
    (0xffdf_f56f, 0, 0, 0, Goes(10, 4, 0xffff_fffc)), // jal x10, -4
    (0x0095_8567, CODE, 0x1000, 0, Goes(10, CODE + 4, 0x1008)), // jalr x10, 9(x11)
    (0x0005_8567, CODE, 0x1001, 0, Goes(10, CODE + 4, 0x1000)), // jalr x10, 0(x11)
    (0x0005_85e7, CODE, 0x2000, 0, Goes(11, CODE + 4, 0x2000)), // jalr x11, 0(x11)
    (0x00a5_8567, CODE, 0x1000, 0, Faults(JumpTarget)), // jalr x10, 10(x11)
    (0x0025_85e7, CODE, 0x1000, 0, Faults(JumpTarget)), // jalr x11, 2(x11)
    (0x0035_8567, CODE, 0xffff_fffd, 0, Goes(10, CODE + 4, 0)), // jalr x10, 3(x11)
    (0xfff5_8067, CODE, 1, 0, Goes(0, 0, 0)), // jalr x0, -1(x11)
    (0xffc5_8067, CODE, 0, 0, Goes(0, 0, 0xffff_fffc)), // jalr x0, -4(x11)
    (0x0092_80e7, CODE, STACK, 0, Goes(1, CODE + 4, STACK + 8)), // jalr x1, 9(x5)
    (0x00a2_80e7, CODE, CODE - 4, 0, Faults(JumpTarget)), // jalr x1, 10(x5)
    (0x00c5_8463, CODE, 7, 7, Goes(0, 0, CODE + 8)), // beq x11, x12, 8
    (0x00c5_8463, CODE, 7, 8, Goes(0, 0, CODE + 4)), // beq x11, x12, 8
    (0x0000_0163, CODE, 0, 0, Faults(JumpTarget)), // beq x0, x0, 2
    (0x0000_1163, CODE, 0, 0, Goes(0, 0, CODE + 4)), // bne x0, x0, 2
    (0x80c5_9063, CODE, 7, 8, Goes(0, 0, 0xf054)), // bne x11, x12, -4096
    (0x00c5_c463, CODE, LEAST, MOST, Goes(0, 0, CODE + 8)), // blt x11, x12, 8
    (0x00c5_c463, CODE, MOST, LEAST, Goes(0, 0, CODE + 4)), // blt x11, x12, 8
    (0x00c5_c463, CODE, 7, 7, Goes(0, 0, CODE + 4)), // blt x11, x12, 8
    (0x00c5_d463, CODE, LEAST, MOST, Goes(0, 0, CODE + 4)), // bge x11, x12, 8
    (0x00c5_d463, CODE, MOST, LEAST, Goes(0, 0, CODE + 8)), // bge x11, x12, 8
    (0x00c5_d463, CODE, ONES, ONES, Goes(0, 0, CODE + 8)), // bge x11, x12, 8
    (0x00c5_e463, CODE, LEAST, MOST, Goes(0, 0, CODE + 4)), // bltu x11, x12, 8
    (0x00c5_e463, CODE, MOST, LEAST, Goes(0, 0, CODE + 8)), // bltu x11, x12, 8
    (0x00c5_e463, CODE, ONES, ONES, Goes(0, 0, CODE + 4)), // bltu x11, x12, 8
    (0x00c5_f463, CODE, LEAST, MOST, Goes(0, 0, CODE + 8)), // bgeu x11, x12, 8
    (0x00c5_f463, CODE, MOST, LEAST, Goes(0, 0, CODE + 4)), // bgeu x11, x12, 8
    (0x7ec5_ffe3, CODE, 7, 7, Faults(JumpTarget)), // bgeu x11, x12, 4094
    (0x7ec5_ffe3, CODE, 7, 8, Goes(0, 0, CODE + 4)), // bgeu x11, x12, 4094
    (0x0000_0463, 0xffff_fffc, 0, 0, Goes(0, 0, 4)), // beq x0, x0, 8
    (0x0000_1463, 0xffff_fffc, 0, 0, Goes(0, 0, 0)), // bne x0, x0, 8
    (0xfe00_0ee3, 0, 0, 0, Goes(0, 0, 0xffff_fffc)), // beq x0, x0, -4
    (0x0015_8513, 0xffff_fffc, 1, 0, Goes(10, 2, 0)), // addi x10, x11, 1
    (0x0000_1517, 0xffff_fffc, 0, 0, Goes(10, 0xffc, 0)), // auipc x10, 1
];

/// A word, x11, the answer, the region, the address and the number of bytes of the load, and a
/// register and its value afterwards.
type Loaded = (u32, u32, u32, Region, u32, u32, u32, u32);

static LOADS: [Loaded; 11] = [
    (0x0005_8503, STACK, 0x80, Stack, STACK, 1, 10, 0xffff_ff80), // lb x10, 0(x11)
    (0x0015_8503, STACK, 0x7f, Stack, STACK + 1, 1, 10, 0x7f), // lb x10, 1(x11)
    (0x0035_c503, STACK, 0x80, Stack, STACK + 3, 1, 10, 0x80), // lbu x10, 3(x11)
    (
        0x0025_9503,
        STACK,
        0x8000,
        Stack,
        STACK + 2,
        2,
        10,
        0xffff_8000,
    ), // lh x10, 2(x11)
    (0x0005_9503, STACK, 0x7fff, Stack, STACK, 2, 10, 0x7fff), // lh x10, 0(x11)
    (0x0005_d503, STACK, 0x8000, Stack, STACK, 2, 10, 0x8000), // lhu x10, 0(x11)
    (0xffc5_a503, LEAST, LEAST, Stack, TOP, 4, 10, LEAST), // lw x10, -4(x11)
    (0x0005_a583, STACK, STORED, Stack, STACK, 4, 11, STORED), // lw x11, 0(x11)
    (0x0005_a003, STACK, ONES, Stack, STACK, 4, 0, 0), // lw x0, 0(x11)
    (0x0005_a503, CODE, 0x5_a503, Text, CODE, 4, 10, 0x5_a503), // lw x10, 0(x11)
    (0x0035_c503, CODE, 0, Text, CODE + 3, 1, 10, 0), // lbu x10, 3(x11)
];

static STORES: [Row; 5] = [
    (0x00c5_80a3, CODE, STACK, STORED, Puts(STACK + 1, 1, 0x78)), // sb x12, 1(x11)
    (0x00c5_9123, CODE, STACK, STORED, Puts(STACK + 2, 2, 0x5678)), // sh x12, 2(x11)
    (0x00c5_a023, CODE, STACK, STORED, Puts(STACK, 4, STORED)), // sw x12, 0(x11)
    (0xfec5_ae23, CODE, LEAST, STORED, Puts(TOP, 4, STORED)), // sw x12, -4(x11)
    (0xfec5_8fa3, CODE, LEAST, STORED, Puts(MOST, 1, 0x78)), // sb x12, -1(x11)
];

static OTHERS: [Row; 41] = [
    (0x0000_0297, CODE, 0, 0, Goes(5, CODE, CODE + 4)), // auipc x5, 0
    (0x0005_a003, CODE, 0, 0, Faults(Load)), // lw x0, 0(x11)
    (0x0005_a503, CODE, LEAST, 0, Faults(Load)), // lw x10, 0(x11)
    (0x0005_a503, CODE, STACK - 4, 0, Faults(Load)), // lw x10, 0(x11)
    (0xffc5_a503, CODE, 0, 0, Faults(Load)), // lw x10, -4(x11)
    (0x0005_8503, CODE, LEAST, 0, Faults(Load)), // lb x10, 0(x11)
    (0x0005_d503, CODE, STACK - 2, 0, Faults(Load)), // lhu x10, 0(x11)
    (0x0015_9503, CODE, STACK, 0, Faults(Misaligned)), // lh x10, 1(x11)
    (0x0005_d503, CODE, MOST, 0, Faults(Misaligned)), // lhu x10, 0(x11)
    (0x0025_a503, CODE, STACK, 0, Faults(Misaligned)), // lw x10, 2(x11)
    (0x0015_a503, CODE, 0, 0, Faults(Misaligned)), // lw x10, 1(x11)
    (0x00c5_a023, CODE, CODE, 0, Faults(Store)), // sw x12, 0(x11)
    (0x00c5_8023, CODE, CODE, 0, Faults(Store)), // sb x12, 0(x11)
    (0x00c5_a023, CODE, LEAST, 0, Faults(Store)), // sw x12, 0(x11)
    (0xfec5_8fa3, CODE, STACK, 0, Faults(Store)), // sb x12, -1(x11)
    (0xfec5_ae23, CODE, 0, 0, Faults(Store)), // sw x12, -4(x11)
    (0x00c5_90a3, CODE, CODE, 0, Faults(Misaligned)), // sh x12, 1(x11)
    (0x00c5_a123, CODE, STACK, 0, Faults(Misaligned)), // sw x12, 2(x11)
    (0x00c5_a0a3, CODE, 0, 0, Faults(Misaligned)), // sw x12, 1(x11)
    (0x00b5_85b3, CODE, 3, 0, Goes(11, 6, CODE + 4)), // add x11, x11, x11
    (0x40c5_8633, CODE, 3, 5, Goes(12, 0xffff_fffe, CODE + 4)), // sub x12, x11, x12
    (0x0015_8013, CODE, 7, 0, Goes(0, 0, CODE + 4)), // addi x0, x11, 1
    (0x0000_1037, CODE, 0, 0, Goes(0, 0, CODE + 4)), // lui x0, 1
    (0x0000_0533, CODE, 0, 0, Goes(10, 0, CODE + 4)), // add x10, x0, x0
    (0x0330_000f, CODE, 0, 0, Goes(0, 0, CODE + 4)), // fence rw, rw
    (0x0ff0_000f, CODE, 0, 0, Goes(0, 0, CODE + 4)), // fence, with all bits
    (0x0000_100f, CODE, 0, 0, Faults(Illegal)), // fence.i
    (0x0273_02b3, CODE, 0, 0, Goes(5, 0, CODE + 4)), // mul x5, x6, x7
    (0x0000_0000, CODE, 0, 0, Faults(Illegal)), // zeros
    (0xffff_ffff, CODE, 0, 0, Faults(Illegal)), // ones
    (0x0010_0073, CODE, 0, 0, Faults(Break)), // ebreak
    (0x0000_0073, CODE, 0x5d, 0x2a, Exits), // ecall
    (0x0000_0073, CODE, 0x5d, 0, Exits), // ecall
    (0x0000_0073, CODE, 3, 0, Calls(Sleep(0), 0)), // ecall
    (0x0000_0073, CODE, 3, 0xff, Calls(Sleep(255), 0)), // ecall
    (0x0000_0073, CODE, 3, 0x100, Faults(BadCall)), // ecall
    (0x0000_0073, CODE, 4, 0, Faults(BadCall)), // ecall
    (0x0000_0073, CODE, 0, 0, Faults(BadCall)), // ecall
    (0x0000_0073, CODE, ONES, 0, Faults(BadCall)), // ecall
    (0x0000_0073, CODE, 1, 0, Faults(BadLock)), // ecall
    (0x0000_0073, CODE, 2, 0, Faults(BadLock)), // ecall
];

/// A file with one range, of one word of code, and a thread that begins there. The entry, the address
/// of the range and the word of code are left open.
const ONE_WORD: [u32; 22] = [
    0x464c_457f,
    0x0001_0101,
    0,
    0,
    0x00f3_0002,
    1,
    0,
    52,
    0,
    0,
    0x0020_0034,
    1,
    0, // The header.
    1,
    84,
    0,
    0,
    4,
    4,
    5,
    4, // The code's segment.
    0, // The code.
];

/// The image of that file with this word at this address.
fn image_of(alloc: Global, at: u32, word: u32) -> Result<Image, Fail> {
    let mut words = ONE_WORD;
    words[6] = at;
    words[15] = at;
    words[21] = word;
    image_of_words(alloc, &words)
}

/// The registers of a case, where its address is a multiple of 4.
fn regs_of(pc: u32, first: u32, second: u32) -> Option<Regs> {
    if pc % 4 != 0 {
        return None;
    }
    let mut regs = Regs::start(pc, 0, 0);
    regs.put(Reg::of(5), first);
    regs.put(Reg::of(11), first);
    regs.put(Reg::of(17), first);
    regs.put(Reg::of(10), second);
    regs.put(Reg::of(12), second);
    Some(regs)
}

fn moved(regs: Regs, number: u32, value: u32, pc: u32) -> Option<Regs> {
    if pc % 4 != 0 {
        return None;
    }
    Some(regs.with(Reg::new(number)?, value).at(pc))
}

/// The act of going on with the next instruction, after this store.
fn put_in(regs: Regs, put: Put) -> Option<Act> {
    let regs = moved(regs, 0, 0, regs.pc().wrapping_add(4))?;
    Some(Act::Next {
        regs,
        put: Some(put),
    })
}

/// The act that an effect is.
fn act_of(regs: Regs, effect: Effect) -> Option<Act> {
    match effect {
        Goes(number, value, pc) => Some(Act::Next {
            regs: moved(regs, number, value, pc)?,
            put: None,
        }),
        Puts(addr, width, value) => put_in(
            regs,
            Put {
                region: Stack,
                addr,
                width,
                value,
            },
        ),
        Calls(call, value) => Some(Act::Called {
            call,
            regs: moved(regs, 10, value, regs.pc().wrapping_add(4))?,
        }),
        Exits => Some(Act::Called {
            call: Call::Exit,
            regs,
        }),
        Faults(fault) => Some(Act::Faulted(fault)),
    }
}

/// What the instruction at registers wants and does.
type Told = (Want, Act);

/// Whether the instruction at registers wants and does this.
fn is_told(image: &Image, held: Held, regs: &Regs, answer: u32, told: &Told) -> bool {
    wants(image, held, regs) == told.0 && act(image, held, regs, answer) == told.1
}

/// Whether an image's one word does what a row says, which loads nothing. The answer is one that
/// nothing looks at.
fn does(image: &Image, row: &Row) -> Option<bool> {
    let (_, pc, first, second, effect) = *row;
    let regs = regs_of(pc, first, second)?;
    let told = (Want::Nothing, act_of(regs, effect)?);
    Some(is_told(image, Held::none(), &regs, 0x5a5a_5a5a, &told))
}

/// Checks that each word of a table does what its row says.
fn check(alloc: Global, rows: &[Row]) -> Result<(), Fail> {
    for (i, row) in rows.iter().enumerate() {
        let image = image_of(alloc, row.1, row.0)?;
        check_row(does(&image, row) == Some(true), i)?;
    }
    Ok(())
}

#[test]
fn operations_give_the_manuals_values(rt: HostRuntime) -> Result<(), Fail> {
    check(rt.alloc(), &VALUES)
}

#[test]
fn jumps_go_where_the_manual_says(rt: HostRuntime) -> Result<(), Fail> {
    check(rt.alloc(), &JUMPS)
}

#[test]
fn stores_put_what_the_manual_says(rt: HostRuntime) -> Result<(), Fail> {
    check(rt.alloc(), &STORES)
}

#[test]
fn other_instructions_do_what_the_manual_says(rt: HostRuntime) -> Result<(), Fail> {
    check(rt.alloc(), &OTHERS)
}

/// Whether an image's one word wants a load and takes its answer, as a row says.
fn loads(image: &Image, row: &Loaded) -> Option<bool> {
    let (_, x11, answer, region, addr, width, number, value) = *row;
    let regs = regs_of(CODE, x11, 0)?;
    let want = Want::Load {
        region,
        addr,
        width,
    };
    let told = (want, act_of(regs, Goes(number, value, NEXT))?);
    Some(is_told(image, Held::none(), &regs, answer, &told))
}

#[test]
fn loads_want_and_take_their_answer(rt: HostRuntime) -> Result<(), Fail> {
    for (i, row) in LOADS.iter().enumerate() {
        let image = image_of(rt.alloc(), CODE, row.0)?;
        check_row(loads(&image, row) == Some(true), i)?;
    }
    Ok(())
}

#[test]
fn code_ends_where_its_range_ends(rt: HostRuntime) -> Result<(), Fail> {
    let image = image_of(rt.alloc(), CODE, 0x0000_0013)?;
    for pc in [CODE - 4, CODE + 4, 0, STACK, 0xffff_fffc] {
        let row = (0x0000_0013, pc, 0, 0, Faults(Fetch));
        check_row(does(&image, &row) == Some(true), pc as usize)?;
    }
    Ok(())
}

/// x17 and x10, a held lock, and the lock that the call takes.
type Wanted = (u32, u32, u32, Option<u32>);

static WANTED: [Wanted; 4] = [
    (1, 4, 2, Some(4)),
    (1, 2, 4, None),
    (1, 5, 0, None),
    (2, 4, 4, None),
];

/// Whether a call takes the lock of a row, by an image with guards and by its decoded code.
fn takes(alloc: Global, image: &Image, row: &Wanted) -> Result<bool, AllocError> {
    let (x17, x10, held, lock) = *row;
    let mut regs = Regs::start(guards::CODE, 0, 0);
    regs.put(Reg::of(17), x17);
    regs.put(Reg::of(10), x10);
    let held = guards::held_of(&[held]);
    let code = Code::of(alloc, image)?;
    let ahead = code.ahead(image, held, &regs, None).lock;
    Ok(lock_wanted(image, held, &regs) == lock && ahead == lock)
}

#[test]
fn a_lock_is_wanted_where_it_is_taken(rt: HostRuntime) -> Result<(), Fail> {
    let image = guards::image_of(rt.alloc(), 0x0000_0073)?;
    for (i, row) in WANTED.iter().enumerate() {
        check_row(takes(rt.alloc(), &image, row)?, i)?;
    }
    Ok(())
}
