//! The table against the GNU assembler, which no contract can name: words of all rows, and words that are
//! no instruction.
use rv_table::{Instr, Row, decode, encode, valid};

/// Words that the GNU assembler gives of all rows, and what stood in its input.
const ASSEMBLED: [(u32, Row, [u32; 3], i32); 52] = [
    (0xffff_f2b7, Row::Lui, [5, 0, 0], -4096), // lui x5, 0xfffff
    (0x8000_0fb7, Row::Lui, [31, 0, 0], -2147483648), // lui x31, 0x80000
    (0x1234_5097, Row::Auipc, [1, 0, 0], 305418240), // auipc x1, 0x12345
    (0x7fff_f0ef, Row::Jal, [1, 0, 0], 1048574), // jal x1, .+0xffffe
    (0x8000_006f, Row::Jal, [0, 0, 0], -1048576), // jal x0, .-0x100000
    (0x8001_00e7, Row::Jalr, [1, 2, 0], -2048), // jalr x1, -2048(x2)
    (0x8020_8063, Row::Beq, [0, 1, 2], -4096), // beq x1, x2, .-4096
    (0x7e41_9fe3, Row::Bne, [0, 3, 4], 4094), // bne x3, x4, .+4094
    (0x0062_c163, Row::Blt, [0, 5, 6], 2), // blt x5, x6, .+2
    (0xfe83_dfe3, Row::Bge, [0, 7, 8], -2), // bge x7, x8, .-2
    (0x00a4_e0e3, Row::Bltu, [0, 9, 10], 2048), // bltu x9, x10, .+2048
    (0x55ef_fb63, Row::Bgeu, [0, 31, 30], 1366), // bgeu x31, x30, .+1366
    (0x7ff1_0083, Row::Lb, [1, 2, 0], 2047), // lb x1, 2047(x2)
    (0xfff2_1183, Row::Lh, [3, 4, 0], -1), // lh x3, -1(x4)
    (0x5553_2283, Row::Lw, [5, 6, 0], 1365), // lw x5, 1365(x6)
    (0x8004_4383, Row::Lbu, [7, 8, 0], -2048), // lbu x7, -2048(x8)
    (0x0005_5483, Row::Lhu, [9, 10, 0], 0), // lhu x9, 0(x10)
    (0x7e11_0fa3, Row::Sb, [0, 2, 1], 2047), // sb x1, 2047(x2)
    (0x8032_1023, Row::Sh, [0, 4, 3], -2048), // sh x3, -2048(x4)
    (0xffff_2fa3, Row::Sw, [0, 30, 31], -1), // sw x31, -1(x30)
    (0xfff1_0093, Row::Addi, [1, 2, 0], -1), // addi x1, x2, -1
    (0x7ff2_2193, Row::Slti, [3, 4, 0], 2047), // slti x3, x4, 2047
    (0x8003_3293, Row::Sltiu, [5, 6, 0], -2048), // sltiu x5, x6, -2048
    (0x5554_4393, Row::Xori, [7, 8, 0], 1365), // xori x7, x8, 1365
    (0xaaa5_6493, Row::Ori, [9, 10, 0], -1366), // ori x9, x10, -1366
    (0x0ff6_7593, Row::Andi, [11, 12, 0], 255), // andi x11, x12, 255
    (0x01f1_1093, Row::Slli, [1, 2, 0], 31), // slli x1, x2, 31
    (0x0002_5193, Row::Srli, [3, 4, 0], 0), // srli x3, x4, 0
    (0x4113_5293, Row::Srai, [5, 6, 0], 17), // srai x5, x6, 17
    (0x0031_00b3, Row::Add, [1, 2, 3], 0), // add x1, x2, x3
    (0x4062_8233, Row::Sub, [4, 5, 6], 0), // sub x4, x5, x6
    (0x0094_13b3, Row::Sll, [7, 8, 9], 0), // sll x7, x8, x9
    (0x00c5_a533, Row::Slt, [10, 11, 12], 0), // slt x10, x11, x12
    (0x00f7_36b3, Row::Sltu, [13, 14, 15], 0), // sltu x13, x14, x15
    (0x0128_c833, Row::Xor, [16, 17, 18], 0), // xor x16, x17, x18
    (0x015a_59b3, Row::Srl, [19, 20, 21], 0), // srl x19, x20, x21
    (0x418b_db33, Row::Sra, [22, 23, 24], 0), // sra x22, x23, x24
    (0x01bd_6cb3, Row::Or, [25, 26, 27], 0), // or x25, x26, x27
    (0x01ee_fe33, Row::And, [28, 29, 30], 0), // and x28, x29, x30
    (0x0231_00b3, Row::Mul, [1, 2, 3], 0), // mul x1, x2, x3
    (0x0262_9233, Row::Mulh, [4, 5, 6], 0), // mulh x4, x5, x6
    (0x0294_23b3, Row::Mulhsu, [7, 8, 9], 0), // mulhsu x7, x8, x9
    (0x02c5_b533, Row::Mulhu, [10, 11, 12], 0), // mulhu x10, x11, x12
    (0x02f7_46b3, Row::Div, [13, 14, 15], 0), // div x13, x14, x15
    (0x0328_d833, Row::Divu, [16, 17, 18], 0), // divu x16, x17, x18
    (0x035a_69b3, Row::Rem, [19, 20, 21], 0), // rem x19, x20, x21
    (0x038b_fb33, Row::Remu, [22, 23, 24], 0), // remu x22, x23, x24
    (0x0f30_000f, Row::Fence, [0, 0, 0], 243), // fence iorw, rw
    (0x8330_000f, Row::Fence, [0, 0, 0], -1997), // fence.tso
    (0x0ff0_000f, Row::Fence, [0, 0, 0], 255), // fence
    (0x0000_0073, Row::Ecall, [0, 0, 0], 0), // ecall
    (0x0010_0073, Row::Ebreak, [0, 0, 0], 0), // ebreak
];

/// Words that are no instruction of RV32IM.
const REFUSED: [u32; 12] = [
    0x0000_0000, // all zero
    0xffff_ffff, // all one
    0x0000_1067, // JALR with funct3 001
    0x0000_2063, // a branch with funct3 010
    0x0000_3003, // LD of RV64
    0x0000_3023, // SD of RV64
    0x0200_1013, // SLLI by 32
    0x4000_1013, // SLLI with funct7 0100000
    0x4000_7033, // AND with funct7 0100000
    0x0000_100f, // FENCE.I
    0x1050_0073, // WFI
    0x0010_0173, // EBREAK with rd 2
];

#[test]
fn table_is_that_of_the_assembler(rt: HostRuntime) {
    for (word, row, [rd, rs1, rs2], imm) in ASSEMBLED {
        let instr = Instr {
            row,
            rd,
            rs1,
            rs2,
            imm,
        };
        assert_eq!(rt; decode(word), Some(instr), "at {word}");
        assert!(rt; valid(&instr), "at {word}");
        assert_eq!(rt; encode(&instr), word, "at {word}");
    }
}

#[test]
fn other_words_are_refused(rt: HostRuntime) {
    for word in REFUSED {
        assert_eq!(rt; decode(word), None, "at {word}");
    }
}
