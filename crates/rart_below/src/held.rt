//! Where the bytes of a prefix of any length are held, in 24 bytes of its node. rart has no such
//! type.
ghost use Rattle.std.specs.Prelude.{◌≡◌, ◌+◌, ◌≤◌, ◌++◌, IfOk, length, take};
ghost use Rattle.rart_below.specs.declared.held.TheConstants.{FEW};
ghost use Rattle.rart_below.specs.Held.{bytes_of, count_of, far_bytes, far_count, far_room, room_of};

use std::alloc::{AllocError, Global};

/// So many bytes fit in place, beside their number and the tag of `Held`.
const FEW: usize = 22;

/// So many fit into a block of each size. With the eight bytes that an allocator keeps of a block
/// they are 64, 128 and 256.
const SHORT: usize = 56;

const MIDDLE: usize = 120;

const LONG: usize = 248;

/// The bytes of a prefix. Few are in place, so a node that has them needs no second block of
/// memory, and a lookup reads none.
#[derive(Drop)]
pub(crate) enum Held {
    InPlace(Few),
    OnHeap(Far),
}

impl Held {
    /// These bytes.
    pub(crate) fn of(alloc: Global, bytes: &[u8]) -> Result<Held, AllocError>
        ensures bytes { IfOk result (λ held. bytes_of held ≡ bytes.now) }
        ensures fits { IfOk result (λ held. count_of held ≤ room_of held) }
    {
        if bytes.len() <= FEW {
            return Ok(Held::InPlace(Few::joined(bytes, &[])));
        }
        Ok(Held::OnHeap(Far::joined(alloc, bytes, &[])?))
    }

    /// Bytes, and others behind them.
    pub(crate) fn joined(alloc: Global, front: &[u8], back: &[u8]) -> Result<Held, AllocError>
        ensures bytes { IfOk result (λ held. bytes_of held ≡ front.now ++ back.now) }
        ensures fits { IfOk result (λ held. count_of held ≤ room_of held) }
    {
        if front.len().saturating_add(back.len()) <= FEW {
            return Ok(Held::InPlace(Few::joined(front, back)));
        }
        Ok(Held::OnHeap(Far::joined(alloc, front, back)?))
    }

    /// The same bytes once more.
    pub(crate) fn copy(&self, alloc: Global) -> Result<Held, AllocError>
        requires { count_of self.now ≤ room_of self.now }
        ensures bytes { IfOk result (λ copy. bytes_of copy ≡ bytes_of self.now) }
        ensures fits { IfOk result (λ copy. count_of copy ≤ room_of copy) }
    {
        match self {
            Held::InPlace(few) => Ok(Held::InPlace(*few)),
            Held::OnHeap(far) => Held::of(alloc, far.as_slice()),
        }
    }

    #[inline]
    pub(crate) fn as_slice(&self) -> &[u8]
        requires { count_of self.now ≤ room_of self.now }
        ensures { result.now ≡ bytes_of self.now }
    {
        match self {
            Held::InPlace(few) => &few.bytes[..few.len as usize],
            Held::OnHeap(far) => far.as_slice(),
        }
    }
}

/// The first `len` of these bytes.
#[derive(Clone, Copy)]
pub(crate) struct Few {
    len: u8,
    bytes: [u8; FEW],
}

impl Few {
    /// Bytes, and others behind them.
    fn joined(front: &[u8], back: &[u8]) -> Few
        requires { length front.now + length back.now ≤ FEW }
        ensures bytes { take result.len result.bytes ≡ front.now ++ back.now }
        ensures fits { result.len ≤ FEW }
    {
        let mut bytes = [0; FEW];
        write_both(front, back, &mut bytes);
        Few {
            len: (front.len() + back.len()) as u8,
            bytes,
        }
    }
}

/// More bytes than fit in place: the first `len` of a block's, or those of a vector, which stands
/// in a block too since it takes 24 bytes alone. The number is in the node, so that who copies the
/// bytes need not wait for the block to know how many they are.
#[derive(Drop)]
pub(crate) enum Far {
    InShort { len: u8, block: Box<[u8; SHORT]> },
    InMiddle { len: u8, block: Box<[u8; MIDDLE]> },
    InLong { len: u8, block: Box<[u8; LONG]> },
    InVector(Box<Vec<u8>>),
}

impl Far {
    /// Bytes, and others behind them.
    fn joined(alloc: Global, front: &[u8], back: &[u8]) -> Result<Far, AllocError>
        ensures bytes { IfOk result (λ far. far_bytes far ≡ front.now ++ back.now) }
        ensures fits { IfOk result (λ far. far_count far ≤ far_room far) }
    {
        let count = front.len().saturating_add(back.len());
        if count <= SHORT {
            let (len, block) = (count as u8, block_of(alloc, front, back)?);
            return Ok(Far::InShort { len, block });
        }
        if count <= MIDDLE {
            let (len, block) = (count as u8, block_of(alloc, front, back)?);
            return Ok(Far::InMiddle { len, block });
        }
        if count <= LONG {
            let (len, block) = (count as u8, block_of(alloc, front, back)?);
            return Ok(Far::InLong { len, block });
        }
        let mut bytes = Vec::with_capacity(alloc, count)?;
        bytes.extend_from_slice(front)?;
        bytes.extend_from_slice(back)?;
        Ok(Far::InVector(Box::new(alloc, bytes)?))
    }

    fn as_slice(&self) -> &[u8]
        requires { far_count self.now ≤ far_room self.now }
        ensures { result.now ≡ far_bytes self.now }
    {
        if let Far::InVector(bytes) = self {
            return bytes.as_slice();
        }
        self.in_block()
    }

    // A vector is told apart before, since then no test is left here: of whatever size a block is,
    // its number and its pointer stand at one place.
    fn in_block(&self) -> &[u8]
        requires { far_count self.now ≤ far_room self.now }
        ensures { result.now ≡ far_bytes self.now }
    {
        match self {
            Far::InShort { len, block } => &block[..*len as usize],
            Far::InMiddle { len, block } => &block[..*len as usize],
            Far::InLong { len, block } => &block[..*len as usize],
            Far::InVector(bytes) => bytes.as_slice(),
        }
    }
}

/// A block that begins with bytes, and others behind them.
fn block_of<const N: usize>(
    alloc: Global,
    front: &[u8],
    back: &[u8],
) -> Result<Box<[u8; N]>, AllocError>
    requires { length front.now + length back.now ≤ N }
    ensures { IfOk result (λ block. take (length front.now + length back.now) block.value
        ≡ front.now ++ back.now) }
{
    let mut bytes = [0; N];
    write_both(front, back, &mut bytes[..]);
    Ok(Box::new(alloc, bytes)?)
}

/// Writes bytes, and others behind them, to the front of the room.
#[inline]
fn write_both(front: &[u8], back: &[u8], room: &mut [u8])
    requires { length front.now + length back.now ≤ length room.old }
    ensures { take (length front.now + length back.now) room.new ≡ front.now ++ back.now }
{
    let end = front.len() + back.len();
    room[..front.len()].copy_from_slice(front);
    room[front.len()..end].copy_from_slice(back);
}
