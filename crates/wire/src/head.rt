// The first fourteen bytes of a dispatch.
ghost use Rattle.std.specs.Prelude.{◌≡◌, ◌≤◌, ◌++◌, length, drop, if◌then◌else◌, Some, None, nat_le};
ghost use Rattle.wire.specs.Heads.{word_of, head_of, head_part, rest_part, head_bytes};

// How many bytes a head has.
pub const HEAD_LENGTH: usize = 14;

// The version of the bytes that are written and read here.
pub const VERSION: u8 = 1;

// The length of the whole, the version, the kind's number, how many vertices, and the root.
#[derive(Clone, Copy, Debug, PartialEq, Eq)]
pub struct Head {
    pub whole: u32,
    // Numbers as they stand in the bytes: they are checked after the head is read.
    pub version: u8,
    pub kind: u8,
    pub count: u32,
    pub root: u32,
}

// The number in four bytes, the highest first.
pub(crate) fn be_word(a: u8, b: u8, c: u8, d: u8) -> u32
    ensures { result ≡ word_of a b c d }
{
    u32::from_be_bytes([a, b, c, d])
}

// The first fourteen bytes taken apart by one pattern, as the rules have it, and the rest; nothing, where there are fewer.
pub fn split_head(bytes: &[u8]) -> Option<(Head, &[u8])>
    ensures head { head_part result ≡ (if nat_le HEAD_LENGTH (length bytes.now) then Some (head_of bytes.now) else None) }
    ensures rest { rest_part result ≡ (if nat_le HEAD_LENGTH (length bytes.now) then Some (drop HEAD_LENGTH bytes.now) else None) }
{
    let [
        l0,
        l1,
        l2,
        l3,
        version,
        kind,
        c0,
        c1,
        c2,
        c3,
        r0,
        r1,
        r2,
        r3,
        rest @ ..,
    ] = bytes
    else {
        return None;
    };
    let head = Head {
        whole: be_word(*l0, *l1, *l2, *l3),
        version: *version,
        kind: *kind,
        count: be_word(*c0, *c1, *c2, *c3),
        root: be_word(*r0, *r1, *r2, *r3),
    };
    Some((head, rest))
}

// Writes the head to the start of `out`.
pub fn write_head(head: Head, out: &mut [u8])
    requires { HEAD_LENGTH ≤ length out.old }
    ensures { out.new ≡ head_bytes head ++ drop HEAD_LENGTH out.old }
{
    out[..4].copy_from_slice(&head.whole.to_be_bytes());
    out[4..6].copy_from_slice(&[head.version, head.kind]);
    out[6..10].copy_from_slice(&head.count.to_be_bytes());
    out[10..HEAD_LENGTH].copy_from_slice(&head.root.to_be_bytes());
}
