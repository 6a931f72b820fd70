//! The names of the instructions of RV32IM.

/// An instruction of RV32IM by its name.
///
/// The rows are those of the tables "RV32I Base Instruction Set" and "RV32M Standard Extension" of the
/// RISC-V unprivileged manual, chapter "RV32/64G Instruction Set Listings".
#[derive(Clone, Copy, Debug, PartialEq, Eq)]
pub enum Row {
    /// LUI: the immediate into rd
    Lui,
    /// AUIPC: pc plus the immediate into rd
    Auipc,
    /// JAL: jumps to pc plus the immediate, with the link in rd
    Jal,
    /// JALR: jumps to rs1 plus the immediate with bit 0 clear, with the link in rd
    Jalr,
    /// BEQ: branches where rs1 and rs2 are equal
    Beq,
    /// BNE: branches where they differ
    Bne,
    /// BLT: branches where rs1 is less as signed
    Blt,
    /// BGE: branches where rs1 is not less as signed
    Bge,
    /// BLTU: branches where rs1 is less as unsigned
    Bltu,
    /// BGEU: branches where rs1 is not less as unsigned
    Bgeu,
    /// LB: loads a byte, extended with its sign
    Lb,
    /// LH: loads two bytes, extended with their sign
    Lh,
    /// LW: loads a word
    Lw,
    /// LBU: loads a byte, extended with zeros
    Lbu,
    /// LHU: loads two bytes, extended with zeros
    Lhu,
    /// SB: stores the low byte of rs2
    Sb,
    /// SH: stores the low two bytes of rs2
    Sh,
    /// SW: stores rs2
    Sw,
    /// ADDI: rs1 plus the immediate
    Addi,
    /// SLTI: 1 where rs1 is less than the immediate as signed, else 0
    Slti,
    /// SLTIU: 1 where rs1 is less than the immediate as unsigned, else 0
    Sltiu,
    /// XORI: exclusive or with the immediate
    Xori,
    /// ORI: or with the immediate
    Ori,
    /// ANDI: and with the immediate
    Andi,
    /// SLLI: rs1 shifted left by the immediate
    Slli,
    /// SRLI: rs1 shifted right by the immediate, zeros in
    Srli,
    /// SRAI: rs1 shifted right by the immediate, its sign in
    Srai,
    /// ADD: the sum of rs1 and rs2
    Add,
    /// SUB: rs1 minus rs2
    Sub,
    /// SLL: rs1 shifted left by rs2
    Sll,
    /// SLT: 1 where rs1 is less than rs2 as signed, else 0
    Slt,
    /// SLTU: 1 where rs1 is less than rs2 as unsigned, else 0
    Sltu,
    /// XOR: exclusive or
    Xor,
    /// SRL: rs1 shifted right by rs2, zeros in
    Srl,
    /// SRA: rs1 shifted right by rs2, its sign in
    Sra,
    /// OR: or
    Or,
    /// AND: and
    And,
    /// MUL: the low word of the product
    Mul,
    /// MULH: the high word of the product, both read as signed
    Mulh,
    /// MULHSU: the high word of the product, rs1 read as signed and rs2 as unsigned
    Mulhsu,
    /// MULHU: the high word of the product, both read as unsigned
    Mulhu,
    /// DIV: the signed quotient towards zero
    Div,
    /// DIVU: the unsigned quotient
    Divu,
    /// REM: the signed remainder, with the sign of rs1
    Rem,
    /// REMU: the unsigned remainder
    Remu,
    /// FENCE: orders accesses to memory, which one machine needs not
    Fence,
    /// ECALL: a call of the environment
    Ecall,
    /// EBREAK: a breakpoint
    Ebreak,
}
