//! Tuples, and the keys that they have.
ghost use Rattle.std.specs.Prelude.{◌≡◌, ◌≤◌, length, take, slice_index};
ghost use Rattle.tuple_index.specs.Tuples.{columns_of, key_of};
ghost use Rattle.tuple_index.specs.Decoding.{column_of, tuple_at};
ghost use Rattle.tuple_index.specs.Indexes.{IsNarrow};

/// A fact of four columns. Tuples are ordered column by column, from the left.
#[derive(Clone, Copy, Debug, PartialEq, Eq, PartialOrd, Ord)]
pub struct Tuple {
    pub relation: u32,
    pub entity: u32,
    pub attribute: u32,
    pub value: u32,
}

impl Tuple {
    /// The key of the tuple: its columns in order, each as 4 bytes, the greatest byte first. So the
    /// keys are in the order of the tuples, and no two tuples have the same.
    pub fn key(self) -> [u8; 16]
        ensures bytes { result ≡ key_of self }
        ensures narrow { IsNarrow self }
    {
        let [r0, r1, r2, r3] = self.relation.to_be_bytes();
        let [e0, e1, e2, e3] = self.entity.to_be_bytes();
        let [a0, a1, a2, a3] = self.attribute.to_be_bytes();
        let [v0, v1, v2, v3] = self.value.to_be_bytes();
        [
            r0, r1, r2, r3, e0, e1, e2, e3, a0, a1, a2, a3, v0, v1, v2, v3,
        ]
    }

    /// A tuple with these columns first.
    pub(crate) fn with_columns(columns: &[u32]) -> Tuple
        requires { length columns.now ≤ 4 }
        ensures { take (length columns.now) (columns_of result) ≡ columns.now }
    {
        let column = |index: usize| columns.get(index).copied().unwrap_or(0);
        Tuple {
            relation: column(0),
            entity: column(1),
            attribute: column(2),
            value: column(3),
        }
    }

    /// The tuple whose key this is. Of a shorter one the lacking bytes count as 0.
    pub(crate) fn of_key(key: &[u8]) -> Tuple
        ensures { result ≡ tuple_at key.now }
    {
        Tuple {
            relation: column_at(key, 0),
            entity: column_at(key, 4),
            attribute: column_at(key, 8),
            value: column_at(key, 12),
        }
    }
}

// The column that stands in the 4 bytes from here on.
fn column_at(key: &[u8], at: usize) -> u32
    requires { at ≤ 12 }
    ensures { result ≡ column_of at key.now }
{
    u32::from_be_bytes([
        byte_at(key, at),
        byte_at(key, at + 1),
        byte_at(key, at + 2),
        byte_at(key, at + 3),
    ])
}

fn byte_at(key: &[u8], index: usize) -> u8
    ensures { result ≡ slice_index key.now index }
{
    key.get(index).copied().unwrap_or(0)
}
