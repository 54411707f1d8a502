//! Which posts the threads of a run count, so that they know when to stop. No clause says anything of it.

use m2_bytes::NoMemory;
use m2_scenario::{Line, Link};
use std::alloc::Global;

/// How many posts count: those of lossless links that no line marks down.
pub fn posts_that_count(links: &[Link], lines: &[Line]) -> u64 {
    let mut posts: u64 = 0;
    'links: for link in links {
        if stays_up(link, lines) {
            posts = posts.saturating_add(posts_over(link, lines));
        }
    }
    posts
}

/// Of each of so many nodes, of which nodes the posts to it count.
pub(crate) fn counts_of(
    alloc: Global,
    nodes: usize,
    links: &[Link],
    lines: &[Line],
) -> Result<Vec<Vec<bool>>, NoMemory> {
    let mut all = Vec::with_capacity(alloc, nodes)?;
    'nodes: for _ in 0..nodes {
        all.push(Vec::from_elem(alloc, false, nodes)?)?;
    }
    'links: for link in links {
        if stays_up(link, lines) {
            set(&mut all, link.a as usize, link.b as usize);
            set(&mut all, link.b as usize, link.a as usize);
        }
    }
    Ok(all)
}

/// Those of `from` count at `at`.
fn set(all: &mut Vec<Vec<bool>>, at: usize, from: usize) {
    if at < all.len() && from < all[at].len() {
        all[at][from] = true;
    }
}

/// Whether the link is lossless, and no line marks an end of it down.
fn stays_up(link: &Link, lines: &[Line]) -> bool {
    !link.of_a.lossy && !link.of_b.lossy && !lines.iter().any(|line| is_down_of(link, line))
}

/// Whether a line marks an end of the link down.
fn is_down_of(link: &Link, line: &Line) -> bool {
    match line {
        Line::Down { a, b } => joins(link, *a, *b),
        _ => false,
    }
}

/// How many posts go over the link.
fn posts_over(link: &Link, lines: &[Line]) -> u64 {
    let mut posts: u64 = 0;
    'lines: for line in lines {
        if is_post_over(link, line) {
            posts = posts.saturating_add(1);
        }
    }
    posts
}

/// Whether a line is a post over the link.
fn is_post_over(link: &Link, line: &Line) -> bool {
    match line {
        Line::Post { a, b, .. } => joins(link, *a, *b),
        _ => false,
    }
}

/// Whether the link is between these nodes.
fn joins(link: &Link, a: u32, b: u32) -> bool {
    (link.a == a && link.b == b) || (link.a == b && link.b == a)
}
