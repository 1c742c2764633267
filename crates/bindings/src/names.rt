// Names of bindings, found in the text that the table points into.
ghost use Rattle.std.specs.Prelude.{◌≡◌, ◌≤◌, ◌<◌, length};
ghost use Rattle.bindings.specs.Code.Table.{tag_of, mix, Passes};
ghost use Rattle.bindings.specs.Code.Known.{Few, known_found, known_name};

use crate::{Bindings, Values};
use base::lacks;

// What a name may mean: the first count bindings of a table, whose names stand in a text.
#[derive(Clone, Copy)]
pub struct Known<'a> {
    pub text: &'a [u8],
    pub table: &'a Bindings,
    pub values: &'a Values,
    pub count: usize,
}

impl<'a> Known<'a> {
    // The newest binding that has a name. Its callers have at most 256 bindings, from a table's count. The loop goes to older ones, past
    // whole blocks: no iterator is plainer.
    pub fn lookup(self, name: &[u8]) -> Option<usize>
        requires { Few self }
        ensures { result ≡ known_found self.entry name.now }
    {
        let tag = tag_of(name);
        let tags = &self.values.tag;
        let mut left = passed(&tags[..self.count], tag);
        while 0 < left {
            let i = left - 1;
            if self.is_called(i, name, tag) {
                return Some(i);
            }
            left = passed(&tags[..i], tag);
        }
        None
    }

    // Whether binding i, of 256, has a name whose tag is given.
    fn is_called(self, i: usize, name: &[u8], tag: u8) -> bool
        requires { (i < 256) × (tag ≡ tag_of name.now) }
        ensures { result ≡ known_name self.entry i name.now }
    {
        if self.values.tag[i] != tag {
            return false;
        }
        let start = usize::from(self.table.name_start[i]);
        let end = start + usize::from(self.table.name_len[i]);
        if end > self.text.len() {
            return false;
        }
        name == &self.text[start..end]
    }
}

// How many of some bindings come before the newest blocks of 16 that all have another tag. A block is compared at once, with no
// branch.
fn passed(tags: &[u8], tag: u8) -> usize
    ensures { Passes tags.now tag result }
{
    let mut rest = tags;
    while let Some((older, block)) = rest.split_last_chunk::<16>() {
        if !lacks(&block[..], tag) {
            break;
        }
        rest = older;
    }
    rest.len()
}

// A byte that most names differ in: a mix of the first byte and the last two.
pub fn tag_of(name: &[u8]) -> u8
    ensures { result ≡ tag_of name.now }
{
    let len = name.len();
    if len == 0 {
        return 0;
    }
    mixed(name[0], name[len.saturating_sub(2)], name[len - 1])
}

fn mixed(first: u8, before: u8, last: u8) -> u8
    ensures { result ≡ mix first before last }
{
    first
        .wrapping_mul(3)
        .wrapping_add(before.wrapping_mul(16))
        .wrapping_add(last)
}
