//! Long lines and long lists: where there is memory no command that lists is refused, however much
//! it lists.
use super::{Trial, assert_served};
use std::alloc::{AllocError, Global};
use std::test::Fail;
use vtree_lines::Served;

/// Lines that make a version of 300 keys and a snapshot of it, and their replies.
fn made(alloc: Global) -> Result<(String, String), AllocError> {
    let mut lines = String::from_str(alloc, "new\n")?;
    let mut replies = String::from_str(alloc, "at 0\n")?;
    for number in 100..400 {
        lines.push_str(&format!(in alloc; "insert 0 'k{number} {number}\n")?)?;
        replies.push_str("false\n")?;
    }
    lines.push_str("snapshot 0\n")?;
    replies.push_str("at 1\n")?;
    Ok((lines, replies))
}

/// What these keys are listed as, with so many times their value, or the values alone.
fn listed(alloc: Global, shows_keys: bool, values: usize) -> Result<String, AllocError> {
    let mut list = String::new(alloc);
    for number in 100..400 {
        if shows_keys {
            list.push_str(&format!(in alloc; " 'k{number}")?)?;
        }
        for _ in 0..values {
            list.push_str(&format!(in alloc; " {number}")?)?;
        }
    }
    Ok(list)
}

/// Each line that lists all of them: the word of its reply, whether it has keys, and how many
/// values of each.
const LISTS: [(&str, &str, bool, usize); 15] = [
    ("iter 0\n", "entries", true, 1),
    ("values 0\n", "values", false, 1),
    ("range 0 - -\n", "entries", true, 1),
    ("range 0 i'k100 i'k399\n", "entries", true, 1),
    ("prefix 0 'k\n", "entries", true, 1),
    ("views 0\n", "entries", true, 1),
    ("prefix-views 0 'k\n", "entries", true, 1),
    ("range-views 0 x'k x'l\n", "entries", true, 1),
    ("prefix-values 0 'k\n", "values", false, 1),
    ("until 0 'k 0 stop\n", "values", false, 1),
    ("until 0 'k 300 fail\n", "failed", false, 1),
    ("intersect 0 1\n", "pairs", true, 2),
    ("intersect-views 0 1\n", "pairs", true, 2),
    ("intersect-values 0 1\n", "value-pairs", false, 2),
    ("flatten 0\n", "entries", true, 1),
];

#[test]
fn three_hundred_keys_are_listed_by_each_command(rt: HostRuntime) -> Result<(), Fail> {
    let (mut lines, mut replies) = made(rt.alloc())?;
    for (line, word, shows_keys, values) in LISTS {
        lines.push_str(line)?;
        replies.push_str(word)?;
        replies.push_str(&listed(rt.alloc(), shows_keys, values)?)?;
        replies.push('\n')?;
    }
    let trial = Trial::of(lines.as_bytes());
    assert_served(
        &rt,
        rt.alloc(),
        trial,
        replies.as_bytes(),
        Ok(Served::Clean),
    )
}

/// Keys of 1 to 16 letters, and what begins the longest.
const CHAIN: &str = "new\ninsert 0 'a 1\ninsert 0 'aa 2\ninsert 0 'aaa 3\ninsert 0 'aaaa 4\n\
                     insert 0 'aaaaa 5\ninsert 0 'aaaaaa 6\ninsert 0 'aaaaaaa 7\n\
                     insert 0 'aaaaaaaa 8\ninsert 0 'aaaaaaaaa 9\ninsert 0 'aaaaaaaaaa 10\n\
                     insert 0 'aaaaaaaaaaa 11\ninsert 0 'aaaaaaaaaaaa 12\n\
                     insert 0 'aaaaaaaaaaaaa 13\ninsert 0 'aaaaaaaaaaaaaa 14\n\
                     insert 0 'aaaaaaaaaaaaaaa 15\ninsert 0 'aaaaaaaaaaaaaaaa 16\n\
                     matches 0 'aaaaaaaaaaaaaaaa\nmatches-each 0 'aaaaaaaaaaaaaaaa\n\
                     longest 0 'aaaaaaaaaaaaaaaa\n";

const CHAIN_REPLIES: &str =
    "at 0\nfalse\nfalse\nfalse\nfalse\nfalse\nfalse\nfalse\nfalse\nfalse\nfalse\nfalse\n\
     false\nfalse\nfalse\nfalse\nfalse\n\
     entries 'a 1 'aa 2 'aaa 3 'aaaa 4 'aaaaa 5 'aaaaaa 6 'aaaaaaa 7 'aaaaaaaa 8 \
     'aaaaaaaaa 9 'aaaaaaaaaa 10 'aaaaaaaaaaa 11 'aaaaaaaaaaaa 12 'aaaaaaaaaaaaa 13 \
     'aaaaaaaaaaaaaa 14 'aaaaaaaaaaaaaaa 15 'aaaaaaaaaaaaaaaa 16\n\
     entries 'a 1 'aa 2 'aaa 3 'aaaa 4 'aaaaa 5 'aaaaaa 6 'aaaaaaa 7 'aaaaaaaa 8 \
     'aaaaaaaaa 9 'aaaaaaaaaa 10 'aaaaaaaaaaa 11 'aaaaaaaaaaaa 12 'aaaaaaaaaaaaa 13 \
     'aaaaaaaaaaaaaa 14 'aaaaaaaaaaaaaaa 15 'aaaaaaaaaaaaaaaa 16\n\
     entries 'aaaaaaaaaaaaaaaa 16\n";

#[test]
fn chain_of_sixteen_keys_is_matched(rt: HostRuntime) -> Result<(), Fail> {
    let trial = Trial::of(CHAIN.as_bytes());
    assert_served(
        &rt,
        rt.alloc(),
        trial,
        CHAIN_REPLIES.as_bytes(),
        Ok(Served::Clean),
    )
}

#[test]
fn long_line_is_skipped_to_its_end(rt: HostRuntime) -> Result<(), Fail> {
    for length in [199, 200, 201, 1000, 1_000_000] {
        let mut lines = String::new(rt.alloc());
        for _ in 0..length {
            lines.push('n')?;
        }
        lines.push_str("\nnew\nnew\r\nversion  0\n")?;
        let replies = b"bad line\nat 0\nbad line\nbad line\n";
        let trial = Trial::of(lines.as_bytes());
        assert_served(&rt, rt.alloc(), trial, replies, Ok(Served::BadLine))?;
    }
    Ok(())
}
