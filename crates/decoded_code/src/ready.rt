ghost use Rattle.std.specs.Prelude.{◌≡◌, ℕ, None, true};
ghost use Rattle.decoded_code.specs.Ready.{done_as, acted, second, third, passes_on, acts_on, DoesAs, IsBefore};
ghost use Rattle.rv_machine.specs.Rows.{Machine};

use cap_word::{add, div, mul, rem, sll, slt, sltu, sra, sub};

/// The kind of a ready operation, named after its instruction (RISC-V unprivileged manual, chapters "RV32I" and "M").
/// The first operation of a group does what its own instruction does; its kind also gives the kinds of the operations
/// after it.
#[derive(Clone, Copy)]
pub enum Kind {
    /// The effect is that of the machine's step; no other kind applies.
    Other,
    /// LUI: sets a register to the constant.
    Lui,
    Addi,
    Sltiu,
    Xori,
    Slli,
    Add,
    Sub,
    Sll,
    Slt,
    Sltu,
    Xor,
    Sra,
    Or,
    And,
    Mul,
    Div,
    Rem,
    Lw,
    Sw,
    /// JAL that sets no register.
    Jump,
    /// JAL that sets a register to the next address.
    Call,
    /// JALR that sets no register.
    JumpTo,
    /// JALR that sets a register to the next address.
    CallTo,
    Bne,
    Bltu,
    /// LW, followed by LW.
    LwLw,
    /// LW, followed by SW.
    LwSw,
    /// SW, followed by LW.
    SwLw,
    /// SW, followed by SW.
    SwSw,
    /// ADDI, followed by SW.
    AddiSw,
    /// LUI, followed by ADDI.
    LuiAddi,
    /// SW, followed by SW and SW.
    SwSwSw,
    /// SW, followed by LW and SW.
    SwLwSw,
    /// SW, followed by LW and LW.
    SwLwLw,
    /// LUI, followed by ADDI and SW.
    LuiAddiSw,
}

impl Kind {
    // The kind of the first operation of a group of this kind, without its group.
    fn first(self) -> Kind
        ensures does { DoesAs result self }
        ensures no_pair { second result ≡ None }
        ensures no_triple { third result ≡ None }
    {
        match self {
            Kind::LwLw | Kind::LwSw => Kind::Lw,
            Kind::SwLw | Kind::SwSw | Kind::SwSwSw | Kind::SwLwSw | Kind::SwLwLw => Kind::Sw,
            Kind::AddiSw => Kind::Addi,
            Kind::LuiAddi | Kind::LuiAddiSw => Kind::Lui,
            kind => kind,
        }
    }

    // The kind of an operation of this kind that is followed by one of another: that of a group, if they form one.
    pub(crate) fn before(self, next: Kind) -> Kind
        ensures does { DoesAs result self }
        ensures group { IsBefore result next }
    {
        let first = self.first();
        let behind = next.first();
        match (first, behind, next) {
            (Kind::Sw, _, Kind::SwSw) => Kind::SwSwSw,
            (Kind::Sw, _, Kind::SwSwSw) => Kind::SwSwSw,
            (Kind::Sw, _, Kind::LwSw) => Kind::SwLwSw,
            (Kind::Sw, _, Kind::LwLw) => Kind::SwLwLw,
            (Kind::Lui, _, Kind::AddiSw) => Kind::LuiAddiSw,
            (Kind::Lw, Kind::Lw, _) => Kind::LwLw,
            (Kind::Lw, Kind::Sw, _) => Kind::LwSw,
            (Kind::Sw, Kind::Lw, _) => Kind::SwLw,
            (Kind::Sw, Kind::Sw, _) => Kind::SwSw,
            (Kind::Addi, Kind::Sw, _) => Kind::AddiSw,
            (Kind::Lui, Kind::Addi, _) => Kind::LuiAddi,
            _ => first,
        }
    }
}

/// An operation of the machine that needs no further decoding. It has 8 bytes.
#[derive(Clone, Copy)]
pub struct Ready {
    pub kind: Kind,
    /// The register that it writes, from 1 to 31; any of them if it writes none.
    pub rd: u8,
    /// The first register that it reads, below 32.
    pub rs1: u8,
    /// The second register that it reads, below 32.
    pub rs2: u8,
    /// Its constant as a word; for a branch or a jump to a fixed place, the index of the target word.
    pub imm: u32,
}

/// The action of a ready operation, after its registers have been read.
#[derive(Clone, Copy)]
pub enum Action {
    /// Sets its register to a value, and continues with the next word.
    Sets { value: u32 },
    /// Sets its register to the word at an address, and continues with the next word.
    Loads { address: u32 },
    /// Stores the word of its second register at an address, and continues with the next word.
    Stores { address: u32 },
    /// Continues with the word at an index.
    Jumps { to: u32 },
    /// Sets its register to the next address, and continues with the word at an index.
    Calls { to: u32 },
    /// Continues at an address whose bit 0 is ignored.
    JumpsNear { place: u32 },
    /// Sets its register to the next address, and continues at an address whose bit 0 is ignored.
    CallsNear { place: u32 },
    /// Continues with the word at the operation's index if the branch is taken, and otherwise with the next word.
    Branches { taken: bool },
    /// Executes the machine's step.
    Steps,
}

impl Ready {
    /// Returns its action as an operation of a kind, if its two registers have the values `a` and `b`. A caller that
    /// knows the kind passes it, so the compiled code doesn't look it up.
    #[inline(always)]
    pub fn action_as(&self, kind: Kind, a: u32, b: u32) -> Action
        ensures does { (m : Machine) → done_as kind self.now a b m ≡ acted result self.now b m }
        ensures on { passes_on kind ≡ true → acts_on result ≡ true }
    {
        match kind {
            Kind::Other => Action::Steps,
            Kind::Lui | Kind::LuiAddi | Kind::LuiAddiSw => Action::Sets { value: self.imm },
            Kind::Addi | Kind::AddiSw => Action::Sets {
                value: add(a, self.imm),
            },
            Kind::Sltiu => Action::Sets {
                value: sltu(a, self.imm),
            },
            Kind::Xori => Action::Sets {
                value: a ^ self.imm,
            },
            Kind::Slli => Action::Sets {
                value: sll(a, self.imm),
            },
            Kind::Add => Action::Sets { value: add(a, b) },
            Kind::Sub => Action::Sets { value: sub(a, b) },
            Kind::Sll => Action::Sets { value: sll(a, b) },
            Kind::Slt => Action::Sets { value: slt(a, b) },
            Kind::Sltu => Action::Sets { value: sltu(a, b) },
            Kind::Xor => Action::Sets { value: a ^ b },
            Kind::Sra => Action::Sets { value: sra(a, b) },
            Kind::Or => Action::Sets { value: a | b },
            Kind::And => Action::Sets { value: a & b },
            Kind::Mul => Action::Sets { value: mul(a, b) },
            Kind::Div => Action::Sets { value: div(a, b) },
            Kind::Rem => Action::Sets { value: rem(a, b) },
            Kind::Lw | Kind::LwLw | Kind::LwSw => Action::Loads {
                address: add(a, self.imm),
            },
            Kind::Sw | Kind::SwLw | Kind::SwSw | Kind::SwSwSw | Kind::SwLwSw | Kind::SwLwLw =>
                Action::Stores {
                    address: add(a, self.imm),
                },
            Kind::Jump => Action::Jumps { to: self.imm },
            Kind::Call => Action::Calls { to: self.imm },
            Kind::JumpTo => Action::JumpsNear {
                place: add(a, self.imm),
            },
            Kind::CallTo => Action::CallsNear {
                place: add(a, self.imm),
            },
            Kind::Bne => Action::Branches { taken: a != b },
            Kind::Bltu => Action::Branches { taken: a < b },
        }
    }
}
