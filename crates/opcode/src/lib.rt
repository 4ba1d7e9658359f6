// The opcodes that a list may have, and what they touch. Only crates of this repository call `category_of`.
#![tactic(auto)]

ghost use Rattle.std.specs.Prelude.{◌≡◌, eqb, option_map};
ghost use Rattle.std.specs.List.{find};
ghost use Rattle.opcode.specs.Opcodes.{category_of, number_of};

// What an opcode touches.
#[derive(Clone, Copy, PartialEq, Eq, Debug)]
pub enum Category {
    // Nothing.
    Nothing,
    // A word.
    Word,
    // A byte.
    Byte,
    // A range of offset and length.
    Range,
    // Two of them.
    TwoRanges,
}

// An opcode and its category.
#[derive(Clone, Copy)]
struct Entry {
    op: u8,
    category: Category,
}

// How many opcodes there are.
const OPCODES: usize = 22;

// One entry for each opcode, in their order.
const TABLE: [Entry; OPCODES] = [
    Entry {
        op: 0x20,
        category: Category::Range,
    },
    Entry {
        op: 0x37,
        category: Category::Range,
    },
    Entry {
        op: 0x39,
        category: Category::Range,
    },
    Entry {
        op: 0x3c,
        category: Category::Range,
    },
    Entry {
        op: 0x3e,
        category: Category::Range,
    },
    Entry {
        op: 0x51,
        category: Category::Word,
    },
    Entry {
        op: 0x52,
        category: Category::Word,
    },
    Entry {
        op: 0x53,
        category: Category::Byte,
    },
    Entry {
        op: 0x59,
        category: Category::Nothing,
    },
    Entry {
        op: 0xa0,
        category: Category::Range,
    },
    Entry {
        op: 0xa1,
        category: Category::Range,
    },
    Entry {
        op: 0xa2,
        category: Category::Range,
    },
    Entry {
        op: 0xa3,
        category: Category::Range,
    },
    Entry {
        op: 0xa4,
        category: Category::Range,
    },
    Entry {
        op: 0xf0,
        category: Category::Range,
    },
    Entry {
        op: 0xf1,
        category: Category::TwoRanges,
    },
    Entry {
        op: 0xf2,
        category: Category::TwoRanges,
    },
    Entry {
        op: 0xf3,
        category: Category::Range,
    },
    Entry {
        op: 0xf4,
        category: Category::TwoRanges,
    },
    Entry {
        op: 0xf5,
        category: Category::Range,
    },
    Entry {
        op: 0xfa,
        category: Category::TwoRanges,
    },
    Entry {
        op: 0xfd,
        category: Category::Range,
    },
];

// The category of the first entry with an opcode, or none.
fn category_in(table: &[Entry], op: u8) -> Option<Category>
    ensures { result ≡ option_map (λ e. e.category) (find (λ e. eqb e.op op) table.now) }
{
    table
        .iter()
        .find(|entry| entry.op == op)
        .map(|entry| entry.category)
}

// The category of an opcode; none where it is not in the table.
pub fn category_of(op: u8) -> Option<Category>
    ensures { number_of result ≡ category_of op }
{
    category_in(&TABLE, op)
}
