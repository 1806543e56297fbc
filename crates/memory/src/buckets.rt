// The bucket of a vertex, for tables that search by buckets. Links of neighbours are close numbers and labels are few, so
// all three are multiplied by large odd constants and the high half is folded down before they are reduced to a bucket:
// any number of buckets will do.
ghost use Rattle.std.specs.Prelude.{◌≡◌, ◌<◌};
ghost use Rattle.memory.specs.Buckets.{folded, mixed, bucket};

use ledger::Vertex;
use symbols::Symbol;

const BY_LABEL: u64 = 0x9e37_79b9_7f4a_7c15;

const BY_ZERO: u64 = 0xc2b2_ae3d_27d4_eb4f;

const BY_ONE: u64 = 0xd6e8_feb8_6659_fd93;

// The high half of a word folded onto the low one.
fn fold(word: u64) -> u64
    ensures { result ≡ folded word }
{
    word ^ (word >> 32)
}

// One number of a scatter number and two links.
fn mix(scatter: u32, zero: u32, one: u32) -> u64
    ensures { result ≡ mixed scatter zero one }
{
    let label = u64::from(scatter).wrapping_mul(BY_LABEL);
    let zero = u64::from(zero).wrapping_mul(BY_ZERO);
    let one = u64::from(one).wrapping_mul(BY_ONE);
    let sum = label.wrapping_add(zero.wrapping_add(one));
    fold(fold(sum).wrapping_mul(BY_LABEL))
}

// The bucket of a vertex among so many.
pub fn bucket<S: Symbol>(vertex: Vertex<S>, count: usize) -> usize
    requires { 0 < count }
    ensures value { result ≡ bucket S.Symbol.scatter count vertex }
    ensures within { result < count }
{
    let mixed = mix(vertex.label.scatter(), vertex.zero, vertex.one);
    (mixed % count as u64) as usize
}
