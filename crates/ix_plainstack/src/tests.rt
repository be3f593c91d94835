// One connection over echo with a stray between its frames, and a connect: what no clause says, that memory is enough.

use crate::{PlainStack, StackEnv};
use ix_appdef::Application;
use ix_base::{BUFFER_BYTES, CoreId, Flow, Local, Owned, Ret, WireNo};
use ix_desk::Unit;
use ix_groupdef::{Env, Isns, Neighbours};
use ix_mbuf::Pool;
use ix_stack::{GroupStack, Taken, Work};
use ix_tcpdef::Cfg;
use std::alloc::Global;
use std::test::Fail;

// A handshake at whose end the peer's window is 3 bytes, five bytes under that window, an acknowledgement of three of their answer that
// opens the window, and one of all five.
const SYN: [u8; 58] = [
    2, 0, 0, 0, 0, 1, 2, 0, 0, 0, 0, 2, 8, 0, 0x45, 0, 0, 0x2c, 0, 0, 0x40, 0, 0x40, 0x06, 0x5d,
    0x29, 0x42, 0x09, 0x95, 0xbb, 0xa1, 0x8e, 0x64, 0x50, 0x0a, 0xea, 0x06, 0xe6, 0, 0, 0x10, 0, 0,
    0, 0, 0, 0x60, 0x02, 0xfa, 0xf0, 0x9d, 0xc2, 0, 0, 2, 4, 5, 0xb4,
];

const ACK: [u8; 54] = [
    2, 0, 0, 0, 0, 1, 2, 0, 0, 0, 0, 2, 8, 0, 0x45, 0, 0, 0x28, 0, 0, 0x40, 0, 0x40, 0x06, 0x5d,
    0x2d, 0x42, 0x09, 0x95, 0xbb, 0xa1, 0x8e, 0x64, 0x50, 0x0a, 0xea, 0x06, 0xe6, 0, 0, 0x10, 0x01,
    0x51, 0xcc, 0xc1, 0x79, 0x50, 0x10, 0, 3, 0, 0, 0, 0,
];

const HELLO: [u8; 59] = [
    2, 0, 0, 0, 0, 1, 2, 0, 0, 0, 0, 2, 8, 0, 0x45, 0, 0, 0x2d, 0, 0, 0x40, 0, 0x40, 0x06, 0x5d,
    0x28, 0x42, 0x09, 0x95, 0xbb, 0xa1, 0x8e, 0x64, 0x50, 0x0a, 0xea, 0x06, 0xe6, 0, 0, 0x10, 0x01,
    0x51, 0xcc, 0xc1, 0x79, 0x50, 0x18, 0, 3, 0, 0, 0, 0, 0x68, 0x65, 0x6c, 0x6c, 0x6f,
];

const ACK_OF_THREE: [u8; 54] = [
    2, 0, 0, 0, 0, 1, 2, 0, 0, 0, 0, 2, 8, 0, 0x45, 0, 0, 0x28, 0, 0, 0x40, 0, 0x40, 0x06, 0x5d,
    0x2d, 0x42, 0x09, 0x95, 0xbb, 0xa1, 0x8e, 0x64, 0x50, 0x0a, 0xea, 0x06, 0xe6, 0, 0, 0x10, 0x06,
    0x51, 0xcc, 0xc1, 0x7c, 0x50, 0x10, 0xfa, 0xf0, 0, 0, 0, 0,
];

const ACK_OF_FIVE: [u8; 54] = [
    2, 0, 0, 0, 0, 1, 2, 0, 0, 0, 0, 2, 8, 0, 0x45, 0, 0, 0x28, 0, 0, 0x40, 0, 0x40, 0x06, 0x5d,
    0x2d, 0x42, 0x09, 0x95, 0xbb, 0xa1, 0x8e, 0x64, 0x50, 0x0a, 0xea, 0x06, 0xe6, 0, 0, 0x10, 0x06,
    0x51, 0xcc, 0xc1, 0x7e, 0x50, 0x10, 0xfa, 0xf0, 0, 0, 0, 0,
];

const NOISE: [u8; 4] = [1, 2, 3, 4];

// Each frame with its wire number, how many buffers the application has and how many are queued once it is stepped, and how many are freed then.
const ROWS: [(u32, &[u8], u32, u32, usize); 6] = [
    (0, &SYN, 0, 0, 1),
    (2, &ACK, 0, 0, 1),
    (4, &HELLO, 1, 0, 0),
    (6, &NOISE, 1, 0, 1),
    (8, &ACK_OF_THREE, 0, 1, 1),
    (10, &ACK_OF_FIVE, 0, 0, 2),
];

fn env(alloc: Global, neighbours: Vec<(u32, [u8; 6])>) -> StackEnv {
    StackEnv::new(Env {
        cfg: Cfg {
            window: 32768,
            mss: 1460,
            rto: 200,
            retries: 5,
            time_wait: 60000,
        },
        local: Local {
            mac: [2, 0, 0, 0, 0, 1],
            ip: 0xa18e_6450,
            port: 1766,
        },
        check: false,
        listens: true,
        isns: Isns::new(Vec::new(alloc)),
        neighbours: Neighbours::new(neighbours),
        app: Application::Echo,
    })
}

// Steps a frame in a buffer of its own.
fn step_frame(
    alloc: Global,
    env: &StackEnv,
    pool: &mut Pool,
    stack: &mut PlainStack,
    w: WireNo,
    frame: &[u8],
) -> Result<(), Fail> {
    let mut buf = pool.take().ok_or("a buffer")?;
    if frame.len() > BUFFER_BYTES {
        return Err("a frame that fits".into());
    }
    buf.fill(frame);
    let items = Vec::from_array(alloc, [Work::Frame(Taken { w, buf })])?;
    stack.step(env, CoreId(3), items)?;
    Ok(())
}

// How many buffers the application has, how many are queued, and how many are handed out.
fn counts(stack: &mut PlainStack) -> Result<(u32, u32, usize), Fail> {
    let Owned { app, queue, .. } = stack.owned(CoreId(3));
    let freed = stack.freed()?;
    Ok((app, queue, freed.len()))
}

#[test]
fn a_told_part_is_with_the_application_then_queued_then_freed(rt: HostRuntime) -> Result<(), Fail> {
    let env = env(rt.alloc(), Vec::new(rt.alloc()));
    let mut pool = Pool::new(rt.alloc(), CoreId(3), 8)?;
    let mut stack = PlainStack::new(rt.alloc());
    for (w, frame, app, queue, freed) in ROWS {
        step_frame(rt.alloc(), &env, &mut pool, &mut stack, WireNo(w), frame)?;
        assert!(rt; counts(&mut stack)? == (app, queue, freed), "frame {w}");
    }
    Ok(())
}

#[test]
fn a_connect_dials_its_flow(rt: HostRuntime) -> Result<(), Fail> {
    let neighbours = Vec::from_array(rt.alloc(), [(0x4209_95bb, [2, 0, 0, 0, 0, 2])])?;
    let env = env(rt.alloc(), neighbours);
    let mut stack = PlainStack::new(rt.alloc());
    let flow = PlainStack::flow(&env, 0x4209_95bb, 80, 49152);
    assert!(rt; PlainStack::is_neighbour(&env, flow.remote) && !stack.has(&flow));
    assert!(rt; stack.connect(&env, CoreId(1), 0, flow)? == Ret::Done(0));
    assert!(rt; stack.has(&flow));
    Ok(())
}
