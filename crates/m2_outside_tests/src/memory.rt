//! Sockets in memory between threads.

use crate::facts::{
    a_connect_ends_a_wait, a_connect_where_nobody_listens_fails,
    a_node_that_was_gathered_accepts_again, bytes_pass_both_ways, waiting_takes_no_processor,
    what_comes_ends_a_wait, what_was_written_before_a_close_is_read,
};
use crate::failing::{
    an_end_that_is_gone_is_told, first_accept_fails, first_write_fails, second_connect_fails,
    second_listen_fails, second_poll_fails, second_read_fails,
};
use crate::pieces::{FOUR_MEGABYTES, noise};
use crate::socket_ends::here;
use m2_mem_fabric::{MemCall, MemFabric};
use std::alloc::Global;
use std::process::Abort;
use std::sync::Wait;

#[test]
fn bytes_in_memory(rt: HostRuntime) {
    let mut fabric = MemFabric::new(rt, rt.alloc()).expect(&rt, "memory");
    let noise = noise(&rt, rt.alloc(), FOUR_MEGABYTES);
    let (there, back) = noise.split_at(noise.len() / 2);
    assert!(rt; bytes_pass_both_ways(&rt, &mut fabric, &here(1), there, back));
    assert!(rt; what_was_written_before_a_close_is_read(&rt, &mut fabric, &here(2), there));
}

#[test]
fn ports_in_memory(rt: HostRuntime) {
    let mut fabric = MemFabric::new(rt, rt.alloc()).expect(&rt, "memory");
    assert!(rt; a_connect_where_nobody_listens_fails(&rt, &mut fabric, &here(1)));
    assert!(rt; a_node_that_was_gathered_accepts_again(&rt, rt.alloc(), &mut fabric, &here(2)));
}

#[test]
fn waits_in_memory(rt: HostRuntime) {
    let mut fabric = MemFabric::new(rt, rt.alloc()).expect(&rt, "memory");
    assert!(rt; waiting_takes_no_processor(&rt, &mut fabric, &here(1)));
    assert!(rt; what_comes_ends_a_wait(&rt, &mut fabric, &here(2)));
    assert!(rt; a_connect_ends_a_wait(&rt, &mut fabric, &here(3)));
    assert!(rt; an_end_that_is_gone_is_told(&rt, &mut fabric, &here(4)));
}

/// A fabric in memory of whose calls one is to fail.
fn failing<R: Wait + Abort + Copy>(rt: R, alloc: Global, call: MemCall, at: u32) -> MemFabric<R> {
    let mut fabric = MemFabric::new(rt, alloc).expect(&rt, "memory");
    fabric.fail(call, at).expect(&rt, "memory");
    fabric
}

#[test]
fn each_planned_call_fails_once_and_is_counted(rt: HostRuntime) {
    let alloc = rt.alloc();
    let read = MemCall::Read { node: 1 };
    let write = MemCall::Write { node: 1 };
    assert!(rt; second_listen_fails(&mut failing(rt, alloc, MemCall::Listen, 2)));
    assert!(rt; second_connect_fails(&rt, &mut failing(rt, alloc, MemCall::Connect, 2)));
    assert!(rt; first_accept_fails(&rt, &mut failing(rt, alloc, MemCall::Accept, 1)));
    assert!(rt; second_poll_fails(&rt, &mut failing(rt, alloc, MemCall::Poll, 2)));
    assert!(rt; second_read_fails(&rt, &mut failing(rt, alloc, read, 2)));
    assert!(rt; first_write_fails(&rt, &mut failing(rt, alloc, write, 1)));
}
