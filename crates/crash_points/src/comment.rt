//! Crash-test comments.
ghost use Rattle.std.specs.Prelude.{◌≡◌, ◌<◌, ◌^◌, length, ◌&&◌, take, drop};
ghost use Rattle.std.specs.Str.{bytes_eq};
ghost use Rattle.tran_ids.specs.Numbers.{decimal};
ghost use Rattle.crash_points.specs.Points.{test_begins, is_test as is_test_of, point_of as point_of_comment};

use itoa::Buffer;

const BEGINS: &[u8; 19] = b"ORA-2PC-CRASH-TEST-";

const NUMBERS: [u8; 10] = [1, 2, 3, 4, 5, 6, 7, 8, 9, 10];

/// The number of the test that a comment asks for: n exactly for the comment `ORA-2PC-CRASH-TEST-n`, n from 1 to 10 in
/// decimal, in these letters.
#[tactic(auto, unfolding(crate::specs::Points::point_of))]
pub fn point_of(comment: &[u8]) -> Option<u8>
    ensures { result ≡ point_of_comment comment.now }
{
    NUMBERS
        .iter()
        .copied()
        .find(|number| is_test(comment, *number))
}

#[tactic(auto, using(crate::proofs::CommentLemmas::joined_is))]
fn is_test(comment: &[u8], number: u8) -> bool
    ensures { result ≡ is_test_of comment.now number }
{
    begins(comment) && ends(comment, number)
}

fn begins(comment: &[u8]) -> bool
    ensures { result ≡ bytes_eq (take 19 comment.now) test_begins }
{
    let (front, _) = cut(comment);
    front == BEGINS.as_slice()
}

#[tactic(auto, using(tran_ids::proofs::NumberLemmas::decimal_is))]
fn ends(comment: &[u8], number: u8) -> bool
    ensures { result ≡ bytes_eq (drop 19 comment.now) (decimal number) }
{
    let (_, rest) = cut(comment);
    let mut buffer = Buffer::new();
    rest == buffer.format(u64::from(number)).as_bytes()
}

// What stands where a test begins, and what stands behind it.
#[tactic(auto, using(std::proofs::lemmas::List::take_min, std::proofs::lemmas::List::drop_min))]
fn cut(comment: &[u8]) -> (&[u8], &[u8])
    ensures front { result.0.now ≡ take 19 comment.now }
    ensures rest { result.1.now ≡ drop 19 comment.now }
{
    comment.split_at(BEGINS.len().min(comment.len()))
}
