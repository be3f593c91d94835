use crate::{TraceFault, read_trace, trace_text};
use std::alloc::{AllocError, Global};
use std::fmt::Write;
use std::test::Fail;

// A trace with each section.
const WHOLE: &str = "head 2 cores 1 groups 512 batch 64 buffers 64
settle open
ring 0 posted 64 frames 0 items 0
home 0 pool 0 posted 64 desk 0 held 0 app 0 queue 0
connect 0 done
frame 0 rec 0 at 0 group 5 ring 0 buf 0.0
settle 1
ring 0 posted 64 frames 1 items 1
home 0 pool 0 posted 64 desk 0 held 0 app 0 queue 0
stray 0 core 0 arp reply 0
conn 5 0 remote 10.0.0.2 9 local 49152 iss b99a9f88
connect
reply 1
left SYN-SENT una 0 nxt 1 rcv 0 cwnd 0 ssthresh 65535
answer wrote 0 taken 0
closed 0 pool 64
end replies 2 drops 0
";

// Other traces.
const TRACES: [&str; 8] = [
    // an echo of one segment
    "head 2 cores 1 groups 512 batch 64 buffers 1024
settle open
ring 0 posted 512 frames 0 items 0
home 0 pool 512 posted 512 desk 0 held 0 app 0 queue 0
frame 0 rec 0 at 0 group 376 ring 0 buf 0.0
settle 1
ring 0 posted 512 frames 1 items 1
home 0 pool 512 posted 512 desk 0 held 0 app 0 queue 0
frame 2 rec 1 at 0 group 376 ring 0 buf 0.1
settle 3
ring 0 posted 512 frames 1 items 1
home 0 pool 512 posted 512 desk 0 held 0 app 0 queue 0
frame 4 rec 2 at 0 group 376 ring 0 buf 0.2
settle 5
ring 0 posted 512 frames 1 items 1
home 0 pool 511 posted 512 desk 0 held 0 app 0 queue 1
frame 6 rec 3 at 0 group 376 ring 0 buf 0.3
settle 7
ring 0 posted 512 frames 1 items 1
home 0 pool 512 posted 512 desk 0 held 0 app 0 queue 0
settle 8
ring 0 posted 512 frames 0 items 0
home 0 pool 512 posted 512 desk 0 held 0 app 0 queue 0
conn 376 0 remote 66.9.149.187 2794 local 1766 iss 51ccc178
seg 0 core 0
reply 0
flush 0
seg 2 core 0
event knock
call accept
ret done 0
flush 2
seg 4 core 0
event recv 0.2 54 5
call recv_done 5
ret done 5
call sendv 5
ret done 5
flush 4
reply 1
seg 6 core 0
event sent 5 64240
flush 6
left ESTABLISHED una 6 nxt 6 rcv 6 cwnd 4385 ssthresh 65535
answer wrote 5 taken 5
closed 0 pool 1024
end replies 2 drops 0
",
    // a handshake
    "head 2 cores 1 groups 512 batch 64 buffers 1024
settle open
ring 0 posted 512 frames 0 items 0
home 0 pool 512 posted 512 desk 0 held 0 app 0 queue 0
frame 0 rec 0 at 0 group 376 ring 0 buf 0.0
settle 1
ring 0 posted 512 frames 1 items 1
home 0 pool 512 posted 512 desk 0 held 0 app 0 queue 0
frame 2 rec 1 at 0 group 376 ring 0 buf 0.1
settle 3
ring 0 posted 512 frames 1 items 1
home 0 pool 512 posted 512 desk 0 held 0 app 0 queue 0
settle 4
ring 0 posted 512 frames 0 items 0
home 0 pool 512 posted 512 desk 0 held 0 app 0 queue 0
conn 376 0 remote 66.9.149.187 2794 local 1766 iss 51ccc178
seg 0 core 0
reply 0
flush 0
seg 2 core 0
event knock
call accept
ret done 0
flush 2
left ESTABLISHED una 1 nxt 1 rcv 1 cwnd 4380 ssthresh 65535
answer wrote 0 taken 0
closed 0 pool 1024
end replies 1 drops 0
",
    // an empty capture
    "head 2 cores 1 groups 512 batch 64 buffers 1024
settle open
ring 0 posted 512 frames 0 items 0
home 0 pool 512 posted 512 desk 0 held 0 app 0 queue 0
settle 0
ring 0 posted 512 frames 0 items 0
home 0 pool 512 posted 512 desk 0 held 0 app 0 queue 0
closed 0 pool 1024
end replies 0 drops 0
",
    // a connect of the application
    "head 2 cores 1 groups 512 batch 64 buffers 64
settle open
ring 0 posted 64 frames 0 items 0
home 0 pool 0 posted 64 desk 0 held 0 app 0 queue 0
connect 0 done
conn 392 0 remote 10.0.0.2 9 local 49152 iss b99a9f88
connect
reply 0
left SYN-SENT una 0 nxt 1 rcv 0 cwnd 0 ssthresh 65535
answer wrote 0 taken 0
closed 0 pool 64
end replies 1 drops 0
",
    // a probe at a closed window
    "head 2 cores 1 groups 512 batch 64 buffers 64
settle open
ring 0 posted 64 frames 0 items 0
home 0 pool 0 posted 64 desk 0 held 0 app 0 queue 0
conn 376 0 remote 66.9.149.187 2794 local 1766 iss 51ccc178
seg 4 core 0
event recv 0.2 54 20
call recv_done 20
ret done 20
call sendv 20
ret done 0
flush 4
reply 1
timer 200
reply 2
flush 7
seg 8 core 0
event sent 0 10
call sendv 20
ret done 10
flush 8
reply 3
left ESTABLISHED una 1 nxt 11 rcv 21 cwnd 4380 ssthresh 65535
answer wrote 20 taken 10
closed 0 pool 64
end replies 4 drops 0
",
    // two cores
    "head 2 cores 2 groups 512 batch 64 buffers 1024
settle open
ring 0 posted 512 frames 0 items 0
ring 1 posted 512 frames 0 items 0
home 0 pool 512 posted 512 desk 0 held 0 app 0 queue 0
home 1 pool 512 posted 512 desk 0 held 0 app 0 queue 0
tag 0 120
move 1 120 1
settle 2
ring 0 posted 512 frames 3 items 11
ring 1 posted 512 frames 0 items 4
home 0 pool 511 posted 512 desk 0 held 0 app 0 queue 1
home 1 pool 512 posted 512 desk 0 held 0 app 0 queue 0
closed 0 pool 1024
closed 1 pool 1024
end replies 0 drops 0
",
    // numbers at the ends of their types
    "head 2 cores 0 groups 512 batch 65535 buffers 4294967295
settle open
frame 0 rec 4294967295 at 4294967295 group 511 ring 255 buf 255.4294967295
frame 1 rec 0 at 0 group 0 ring 0 drop too-long 4294967295
time 2 4294967295
settle 3
stray 4294967294 core 0 arp reply -
stray 4294967295 core 255 udp-echo reply 4294967295
conn 511 0 remote 255.255.255.255 65535 local 65535 iss ffffffff
timer 18446744073709551615
left CLOSED una 18446744073709551615 nxt 18446744073709551615 rcv 18446744073709551615 cwnd 4294967295 ssthresh 4294967295
answer wrote 18446744073709551615 taken 18446744073709551615
conn 511 1 remote 0.0.0.0 0 local 0 iss 00000000
left LISTEN una 0 nxt 0 rcv 0 cwnd 0 ssthresh 0
answer wrote 0 taken 0
end replies 4294967295 drops 4294967295
",
    // a home whose numbers do not add up
    "head 2 cores 1 groups 512 batch 64 buffers 64
settle open
ring 0 posted 64 frames 0 items 0
home 0 pool 9 posted 64 desk 0 held 0 app 0 queue 0
connect 0 done
frame 0 rec 0 at 0 group 5 ring 0 buf 0.0
settle 1
ring 0 posted 64 frames 1 items 1
home 0 pool 9 posted 64 desk 0 held 0 app 0 queue 0
stray 0 core 0 arp reply 0
conn 5 0 remote 10.0.0.2 9 local 49152 iss b99a9f88
connect
reply 1
left SYN-SENT una 0 nxt 1 rcv 0 cwnd 0 ssthresh 65535
answer wrote 0 taken 0
closed 0 pool 64
end replies 2 drops 0
",
];

// Whether the reader gives a report whose text this is.
fn is_there_and_back(alloc: Global, trace: &str) -> Result<bool, Fail> {
    let report = read_trace(alloc, trace.as_bytes())?;
    let text = trace_text(alloc, &report)?;
    Ok(text.as_slice() == trace.as_bytes())
}

#[test]
fn there_and_back(rt: HostRuntime) -> Result<(), Fail> {
    assert!(rt; is_there_and_back(rt.alloc(), WHOLE)?);
    for trace in TRACES {
        assert!(rt; is_there_and_back(rt.alloc(), trace)?);
    }
    Ok(())
}

// Texts that are no trace: so many lines of the whole one, these bytes, and the whole one's lines from a line on. Then the first bad line,
// counted from 1.
const BAD: [(usize, &str, usize, u64); 48] = [
    // an empty file
    (0, "", 17, 1),
    // an empty line
    (0, "\n", 17, 1),
    // the first format
    (0, "head 1 cores 1 buffers 64\n", 1, 1),
    // the first line without its end
    (0, "head 2 cores 1 groups 512 batch 64 buffers 64", 17, 1),
    // the first line alone
    (1, "", 17, 2),
    // other groups
    (0, "head 2 cores 1 groups 511 batch 64 buffers 64\n", 1, 1),
    // a leading zero
    (0, "head 2 cores 01 groups 512 batch 64 buffers 64\n", 1, 1),
    // cores past the end of their type
    (0, "head 2 cores 256 groups 512 batch 64 buffers 64\n", 1, 1),
    // a settle with a number for the first
    (1, "settle 0\n", 2, 2),
    // a ring line missing
    (2, "", 3, 3),
    // another core on a ring line
    (2, "ring 1 posted 64 frames 0 items 0\n", 3, 3),
    // one ring line too many
    (3, "ring 1 posted 64 frames 0 items 0\n", 3, 4),
    // a home line missing
    (3, "", 4, 4),
    // one home line too many
    (
        4,
        "home 1 pool 0 posted 64 desk 0 held 0 app 0 queue 0\n",
        4,
        5,
    ),
    // ring and home lines in turn
    (0, "head 2 cores 2 groups 512 batch 64 buffers 64\n", 1, 4),
    // connects that do not follow
    (4, "connect 1 done\n", 5, 5),
    // an unknown answer of a connect
    (4, "connect 0 refused\n", 5, 5),
    // a connect behind an entry
    (6, "connect 1 done\n", 6, 7),
    // a wire number that does not follow
    (5, "frame 1 rec 0 at 0 group 5 ring 0 buf 0.0\n", 6, 6),
    // a group past the last
    (5, "frame 0 rec 0 at 0 group 512 ring 0 buf 0.0\n", 6, 6),
    // a doubled blank
    (5, "frame 0 rec  0 at 0 group 5 ring 0 buf 0.0\n", 6, 6),
    // a blank at the end
    (5, "frame 0 rec 0 at 0 group 5 ring 0 buf 0.0 \n", 6, 6),
    // a carriage return
    (5, "frame 0 rec 0 at 0 group 5 ring 0 buf 0.0\r\n", 6, 6),
    // an empty line among others
    (6, "\n", 6, 7),
    // a settle whose number does not follow
    (6, "settle 2\n", 7, 7),
    // a settle without its lines
    (7, "", 8, 8),
    // an entry behind a stray
    (10, "time 2 5\n", 10, 11),
    // strays that do not rise
    (10, "", 9, 11),
    // a kind without its second word
    (9, "stray 0 core 0 bad-ip reply -\n", 10, 10),
    // a stray behind a connection
    (15, "stray 1 core 0 arp reply -\n", 15, 16),
    // a place in the group that does not follow
    (
        10,
        "conn 5 1 remote 10.0.0.2 9 local 49152 iss b99a9f88\n",
        11,
        11,
    ),
    // hexadecimal digits of the other case
    (
        10,
        "conn 5 0 remote 10.0.0.2 9 local 49152 iss B99A9F88\n",
        11,
        11,
    ),
    // an output before any input
    (11, "", 12, 12),
    // a number past the end of its type
    (12, "reply 4294967296\n", 13, 13),
    // an input behind how it was left
    (14, "flush 0\n", 14, 15),
    // how it was left without the last two numbers
    (13, "left SYN-SENT una 0 nxt 1 rcv 0\n", 14, 14),
    // no answer line
    (14, "", 15, 15),
    // a second connection at the same place
    (15, "", 10, 16),
    // groups that fall
    (
        15,
        "conn 4 0 remote 10.0.0.2 9 local 49152 iss b99a9f88\n",
        11,
        16,
    ),
    // another core on a closed line
    (15, "closed 1 pool 64\n", 16, 16),
    // an end before the closed lines
    (15, "", 16, 16),
    // one closed line too many
    (16, "closed 1 pool 64\n", 16, 17),
    // a connection behind the closed lines
    (
        16,
        "conn 5 0 remote 10.0.0.2 9 local 49152 iss b99a9f88
connect
reply 1
left SYN-SENT una 0 nxt 1 rcv 0 cwnd 0 ssthresh 65535
answer wrote 0 taken 0
",
        16,
        17,
    ),
    // no end
    (16, "", 17, 17),
    // the last line without its end
    (16, "end replies 2 drops 0", 17, 17),
    // text behind the end
    (17, "\n", 17, 18),
    // a line behind the end without its end
    (17, "end", 17, 18),
    // a second trace behind the end
    (17, "", 0, 18),
];

#[test]
fn first_bad_lines(rt: HostRuntime) -> Result<(), Fail> {
    for (kept, instead, from, line) in BAD {
        let text = edited(rt.alloc(), kept, instead, from)?;
        let fault = read_trace(rt.alloc(), text.as_bytes()).err();
        assert!(rt; fault == Some(TraceFault::Line { line }));
    }
    Ok(())
}

fn edited(alloc: Global, kept: usize, instead: &str, from: usize) -> Result<String, AllocError> {
    let mut text = String::new(alloc);
    for line in WHOLE.lines().take(kept) {
        write!(text, "{line}\n")?;
    }
    text.push_str(instead)?;
    for line in WHOLE.lines().skip(from) {
        write!(text, "{line}\n")?;
    }
    Ok(text)
}
