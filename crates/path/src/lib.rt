// The stem of the file that a Unix path names, as a part of what was lent.
#![tactic(auto)]

ghost use Rattle.std.specs.Prelude.{◌≡◌};
ghost use Rattle.path.specs.Stem.{ignored, parent, component, file_name, stem_of, file_stem};
ghost use Rattle.path.specs.Code.Scan.{LastAt};

pub fn file_stem(path: &[u8]) -> &[u8]
    ensures { result.now ≡ file_stem path.now }
{
    stem(file_name(path))
}

// Empty where the last component is no name.
fn file_name(path: &[u8]) -> &[u8]
    ensures { result.now ≡ file_name path.now }
{
    let last = last_component(path);
    if is_parent(last) {
        return &last[..0];
    }
    last
}

// Empty where there is none.
fn last_component(path: &[u8]) -> &[u8]
    ensures { result.now ≡ component path.now }
{
    path.rsplit(|a| *a == b'/')
        .find(|part| !is_ignored(part))
        .unwrap_or(&path[..0])
}

fn is_ignored(part: &[u8]) -> bool
    ensures { result ≡ ignored part.now }
{
    matches!(part, [] | [b'.'])
}

fn is_parent(part: &[u8]) -> bool
    ensures { result ≡ parent part.now }
{
    matches!(part, [b'.', b'.'])
}

// The text before the last dot, where that is not the first byte.
fn stem(name: &[u8]) -> &[u8]
    ensures { result.now ≡ stem_of name.now }
{
    if name.is_empty() {
        return name;
    }
    match last_byte(&name[1..], b'.') {
        Some(i) => &name[..i + 1],
        None => name,
    }
}

// The last offset at which b stands.
fn last_byte(s: &[u8], b: u8) -> Option<usize>
    ensures { LastAt b s.now result }
{
    s.iter().rposition(|a| *a == b)
}
