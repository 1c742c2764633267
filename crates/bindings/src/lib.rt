// The table of the bindings that are made, oldest first.
#![tactic(auto)]

ghost use Rattle.std.specs.Prelude.{◌≡◌, ◌<◌, false, get_or};
ghost use Rattle.bindings.specs.Code.Table.{value_unless_none};
ghost use Rattle.bindings.specs.Code.Rows.{table_with, values_with};

pub mod names;

// Parallel arrays and a count: the form that the project's rules give the table, which travels by value.
#[derive(Clone, Copy)]
pub struct Bindings {
    pub name_start: [u16; 256],
    pub name_len: [u16; 256],
    pub expr_start: [u16; 256],
    pub expr_len: [u16; 256],
    pub k: [u16; 256],
    pub p: [u16; 256],
    pub count: usize,
}

// What a binding needs beside the table, in arrays as there: an index means the same binding in all of them, and the tags stand side by
// side, since a lookup compares 16 at once. A value is none where its flag says so: tried as an array of options, the struct, which
// travels by value, grows from 3,584 bytes to 5,376, and the tally takes 1.28 of its time.
#[derive(Clone, Copy)]
pub struct Values {
    pub value: [u64; 256],
    pub none: [bool; 256],
    pub len: [u32; 256],
    pub tag: [u8; 256],
}

// One binding, as the arrays of the table and beside it hold it.
#[derive(Clone, Copy)]
pub struct Row {
    pub name_start: u16,
    pub name_len: u16,
    pub expr_start: u16,
    pub expr_len: u16,
    pub k: u16,
    pub p: u16,
    pub value: Option<u64>,
    pub len: u32,
    pub tag: u8,
}

impl Bindings {
    // The table's part of a row, behind the bindings that are there. `TableState::bind` of crate `scope` calls it where there are fewer
    // than 256 (21).
    pub fn push(&mut self, row: Row)
        requires { self.old.count < 256 }
        ensures { self.new ≡ table_with self.old row }
    {
        let i = self.count;
        self.name_start[i] = row.name_start;
        self.name_len[i] = row.name_len;
        self.expr_start[i] = row.expr_start;
        self.expr_len[i] = row.expr_len;
        self.k[i] = row.k;
        self.p[i] = row.p;
        self.count = i + 1;
    }
}

// An index is asked to be below 256 at each call: a type for it would be made anew where a count gives it, and is no plainer.
impl Values {
    // The other part of a row, that of binding i. `TableState::bind` calls it with the count, where that is below 256 (21).
    pub fn set(&mut self, i: usize, row: Row)
        requires { i < 256 }
        ensures { self.new ≡ values_with self.old i row }
    {
        self.value[i] = row.value.unwrap_or(0);
        self.none[i] = row.value.is_none();
        self.len[i] = row.len;
        self.tag[i] = row.tag;
    }

    // The value of binding i, which its callers have from `lookup`.
    pub fn value_of(&self, i: usize) -> Option<u64>
        requires { i < 256 }
        ensures { result ≡ value_unless_none (get_or self.now.none i false) (get_or self.now.value i 0) }
    {
        (!self.none[i]).then_some(self.value[i])
    }
}
