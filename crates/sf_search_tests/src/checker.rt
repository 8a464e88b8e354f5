//! Certificates of small designs, the first failure of each, and the parts that close their subproblems.

ghost use Rattle.std.specs.Prelude.{◌≡◌};
ghost use Rattle.sf_model.specs.Legal.{block_count};

use sf_bounds::Standard;
use sf_cert_text::{CertFault, read};
use sf_certificate::Tag;
use sf_checker::{Answer, Checking, FinishFault, Why, check, name_parts};
use sf_model::Design;
use sf_node::Part;
use sf_test_designs::{WIDE, three_shapes, two_blocks, two_squares};
use std::alloc::{AllocError, Global};

/// The answer to a text that comes byte by byte.
fn byte_by_byte(alloc: Global, design: &Design, text: &[u8]) -> Result<Answer, FinishFault> {
    let mut checking = Checking::new(alloc, design, &Standard)?;
    for byte in text {
        checking.feed(&[*byte])?;
    }
    checking.finish()
}

/// Certificates of two hard blocks, each with its answer: every failure is the first of its own.
const BY_AREA: [(&[u8], Answer); 7] = [
    (
        b"slicing-certificate 1\nblocks 2\ncost 15\nbound 15\nplan 0:2x3 1:3x2 *\ntree\nE E E C C E E C C\n",
        Answer::Yes(15, 15, 9),
    ),
    (
        b"slicing-certificate 1\nblocks 2\ncost 15\nbound 15\nplan 0:2x4 1:3x2 *\ntree\nE E E C C E E C C\n",
        Answer::No(Why::BadPlan),
    ),
    (
        b"slicing-certificate 1\nblocks 2\ncost 14\nbound 15\nplan 0:2x3 1:3x2 *\ntree\nE E E C C E E C C\n",
        Answer::No(Why::CostDiffers(14, 15)),
    ),
    (
        b"slicing-certificate 1\nblocks 2\ncost 15\nbound 15\nplan 0:2x3 1:3x2 *\ntree\nC\n",
        Answer::No(Why::NotClosed(0, 12, 15)),
    ),
    (
        b"slicing-certificate 1\nblocks 2\ncost none\nbound 13\nplan none\ntree\nE O O\n",
        Answer::No(Why::BoundDiffers(13, 12)),
    ),
    (
        b"slicing-certificate 1\nblocks 2\ncost 15\nbound 15\nplan 0:2x3 1:3x2 *\ntree\nE S 0 C C O\n",
        Answer::No(Why::BadSplit(1)),
    ),
    (
        b"slicing-certificate 1\nblocks 2\ncost 15\nbound 15\nplan 0:2x3 1:3x2 *\ntree\nE E E E C E E C C\n",
        Answer::No(Why::BadChildren(3)),
    ),
];

/// Certificates of two squares and a net of both, of which the second names a part that is too small.
const BY_PART: [(&[u8], Answer); 2] = [
    (
        b"slicing-certificate 2\nblocks 2\ncost 12\nbound 12\nplan 0:2x2 1:2x2 *\ntree\nE E E C p C p C p\n",
        Answer::Yes(12, 12, 6),
    ),
    (
        b"slicing-certificate 2\nblocks 2\ncost 12\nbound 12\nplan 0:2x2 1:2x2 *\ntree\nE E E C a C p C p\n",
        Answer::No(Why::NotClosed(3, 8, 12)),
    ),
];

/// The answer to a text as a whole.
fn answer_of(alloc: Global, design: &Design, text: &[u8]) -> Result<Answer, CertFault>
    requires { block_count design.now ≡ 2 }
{
    let cert = read(alloc, text, 2)?;
    Ok(check(alloc, design, &Standard, &cert)?)
}

/// Whether a text about two hard blocks has this answer, as a whole and byte by byte.
fn is_answered_by_area(alloc: Global, text: &[u8], answer: Answer) -> Result<bool, AllocError> {
    let design = two_blocks(alloc, WIDE)?;
    Ok(
        answer_of(alloc, &design, text) == Ok(answer)
            && byte_by_byte(alloc, &design, text) == Ok(answer),
    )
}

#[test]
fn answers_the_first_failure(rt: HostRuntime) {
    for (text, answer) in BY_AREA {
        assert!(rt;
            is_answered_by_area(rt.alloc(), text, answer) == Ok(true),
            "{answer:?}"
        );
    }
}

/// The same of a text about two squares.
fn is_answered_by_part(alloc: Global, text: &[u8], answer: Answer) -> Result<bool, AllocError> {
    let design = two_squares(alloc, 1)?;
    Ok(
        answer_of(alloc, &design, text) == Ok(answer)
            && byte_by_byte(alloc, &design, text) == Ok(answer),
    )
}

#[test]
fn measures_the_part_that_is_named(rt: HostRuntime) {
    for (text, answer) in BY_PART {
        assert!(rt;
            is_answered_by_part(rt.alloc(), text, answer) == Ok(true),
            "{answer:?}"
        );
    }
}

/// Whether the text's certificate is valid and has these tags once it names the first parts.
fn is_named(
    alloc: Global,
    design: &Design,
    blocks: u16,
    text: &[u8],
    tags: &[Tag],
) -> Result<bool, CertFault>
    requires { blocks ≡ block_count design.now }
{
    let cert = read(alloc, text, blocks)?;
    match check(alloc, design, &Standard, &cert)? {
        Answer::Yes(..) => Ok(
            name_parts(alloc, design, &Standard, cert)?
                .tags
                .into_vec(alloc)?
                .as_slice()
                == tags,
        ),
        Answer::No(_) => Ok(false),
    }
}

/// Whether a text about two squares closes by the pairs.
fn names_pairs(alloc: Global) -> Result<bool, CertFault> {
    let design = two_squares(alloc, 1)?;
    let tags = [
        Tag::Extend,
        Tag::Extend,
        Tag::Extend,
        Tag::Closed(Part::Pair),
        Tag::Closed(Part::Pair),
        Tag::Closed(Part::Pair),
    ];
    let text =
        b"slicing-certificate 1\nblocks 2\ncost 12\nbound 12\nplan 0:2x2 1:2x2 *\ntree\nE E E C C C\n";
    is_named(alloc, &design, 2, text, &tags)
}

/// Whether a text about a block of three shapes closes by the hulls.
fn names_hulls(alloc: Global) -> Result<bool, CertFault> {
    let design = three_shapes(alloc)?;
    let tags = [
        Tag::Extend,
        Tag::Split(0),
        Tag::Closed(Part::Hull),
        Tag::Split(0),
        Tag::Closed(Part::Hull),
        Tag::Closed(Part::Hull),
    ];
    let text =
        b"slicing-certificate 1\nblocks 1\ncost 196\nbound 196\nplan 0:3x2\ntree\nE S 0 C S 0 C C\n";
    is_named(alloc, &design, 1, text, &tags)
}

#[test]
fn names_the_first_parts(rt: HostRuntime) {
    assert!(rt; names_pairs(rt.alloc()) == Ok(true));
    assert!(rt; names_hulls(rt.alloc()) == Ok(true));
}

/// Texts, each with the first of its faults.
const FAULTS: [(&[u8], CertFault); 5] = [
    (
        b"slicing-certificate 1\nblocks 2\ncost none\nbound 0\nplan none\ntree\nE\nE\n",
        CertFault::Truncated(8),
    ),
    (
        b"slicing-certificate 1\nblocks 2\ncost none\nbound 0\nplan none\ntree\nE\nE\nE\nC\nC\nO\nC\n",
        CertFault::Trailing(13),
    ),
    (
        b"slicing-certificate 1\nblocks 2\ncost none\nbound 0\nplan none\ntree\nX\nE\n",
        CertFault::BadTag(7),
    ),
    (
        b"slicing-certificate 1\nblocks 2\ncost none\nbound 0\nplan none\ntree\nX",
        CertFault::BadTag(7),
    ),
    (
        b"slicing-certificate 1\nblocks 2\ncost none",
        CertFault::BadHeader(3),
    ),
];

/// The answer to a text about two hard blocks that comes byte by byte.
fn answer_to(alloc: Global, text: &[u8]) -> Result<Answer, FinishFault> {
    let design = two_blocks(alloc, WIDE)?;
    byte_by_byte(alloc, &design, text)
}

#[test]
fn tells_the_first_fault_of_a_text(rt: HostRuntime) {
    for (text, fault) in FAULTS {
        assert!(rt;
            answer_to(rt.alloc(), text) == Err(FinishFault::Text(fault)),
            "{fault:?}"
        );
    }
}
