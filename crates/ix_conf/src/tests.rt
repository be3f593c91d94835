// What no clause says: the configurations of the documentation, each key at its ends, and that memory is enough.
use crate::{AppKind, Conf, ConfFault, ConfKey, read_conf};
use std::alloc::{AllocError, Global};
use std::test::Fail;

const STANDARD: &str =
    "[local]\nmac = \"02:00:00:00:00:01\"\nip = \"161.142.100.80\"\nport = 1766\napp = \"echo\"\n";

const PUSHING: &str =
    "[push]\ntext = \"h\\u00e9\\n\"\npeers = [{port = 2794, ip = \"66.9.149.187\"}, {ip = \"0.0.0.255\", port = 1}]\n[local]\nmac = \"0a:bB:Cc:dd:eE:Ff\"\nip = \"255.0.10.1\"\nport = 0xffff\napp = \"push\"\n[core]\ncores = 8\nlive = 3\nbatch = 1\nbuffers = 4_096\npace = 0\n[tcp]\nwindow = 64\nmss = 536\nrto = 1\nretries = 8\ntime_wait = 5\nchecksum = false\n[[neighbour]]\nip = \"66.9.149.187\"\nmac = \"02:00:00:00:00:02\"\n[[neighbour]]\nmac = \"ff:ff:ff:ff:ff:ff\"\nip = \"0.0.0.255\"\n";

// What a reader answers, without the configuration.
fn outcome(alloc: Global, text: &str) -> Result<(), ConfFault> {
    match read_conf(alloc, text.as_bytes()) {
        Ok(_) => Ok(()),
        Err(fault) => Err(fault),
    }
}

#[test]
fn defaults(rt: HostRuntime) -> Result<(), Fail> {
    let conf: Conf = read_conf(rt.alloc(), STANDARD.as_bytes())?;
    assert_eq!(rt; conf.mac, [2, 0, 0, 0, 0, 1]);
    assert_eq!(rt; conf.ip, 0xa18e_6450);
    assert_eq!(rt; (conf.port, conf.app), (1766, AppKind::Echo));
    assert_eq!(rt; (conf.cores, conf.live, conf.batch), (1, 1, 64));
    assert_eq!(rt; (conf.buffers, conf.pace), (1024, 256));
    assert_eq!(rt; (conf.window, conf.mss, conf.rto), (32768, 1460, 200));
    assert_eq!(rt;
        (conf.retries, conf.time_wait, conf.checksum),
        (5, 60000, true)
    );
    assert!(rt; conf.neighbours.is_empty() && conf.text.is_empty() && conf.peers.is_empty());
    Ok(())
}

#[test]
fn every_key(rt: HostRuntime) -> Result<(), Fail> {
    let conf: Conf = read_conf(rt.alloc(), PUSHING.as_bytes())?;
    assert_eq!(rt; conf.mac, [0x0a, 0xbb, 0xcc, 0xdd, 0xee, 0xff]);
    assert_eq!(rt; conf.ip, 0xff00_0a01);
    assert_eq!(rt; (conf.port, conf.app), (65535, AppKind::Push));
    assert_eq!(rt; (conf.cores, conf.live, conf.batch), (8, 3, 1));
    assert_eq!(rt; (conf.buffers, conf.pace), (4096, 0));
    assert_eq!(rt; (conf.window, conf.mss, conf.rto), (64, 536, 1));
    assert_eq!(rt;
        (conf.retries, conf.time_wait, conf.checksum),
        (8, 5, false)
    );
    assert_eq!(rt;
        conf.neighbours.as_slice(),
        [(0x4209_95bb, [2, 0, 0, 0, 0, 2]), (255, [255; 6])].as_slice()
    );
    assert_eq!(rt; conf.text.as_slice(), [b'h', 0xc3, 0xa9, b'\n'].as_slice());
    assert_eq!(rt;
        conf.peers.as_slice(),
        [(0x4209_95bb, 2794), (255, 1)].as_slice()
    );
    Ok(())
}

// The standard configuration with one more section of one key.
fn with_key(alloc: Global, section: &str, name: &str, value: &str) -> Result<String, AllocError> {
    format!(in alloc; "{STANDARD}[{section}]\n{name} = {value}\n")
}

// A key with two values that it may have and two that it may not have.
struct Ends {
    section: &'static str,
    name: &'static str,
    key: ConfKey,
    allowed: [&'static str; 2],
    refused: [&'static str; 2],
}

const ENDS: [Ends; 13] = [
    Ends {
        section: "core",
        name: "cores",
        key: ConfKey::CoreCores,
        allowed: ["1", "8"],
        refused: ["0", "9"],
    },
    Ends {
        section: "core",
        name: "live",
        key: ConfKey::CoreLive,
        allowed: ["1", "1"],
        refused: ["0", "2"],
    },
    Ends {
        section: "core",
        name: "batch",
        key: ConfKey::CoreBatch,
        allowed: ["1", "256"],
        refused: ["0", "257"],
    },
    Ends {
        section: "core",
        name: "buffers",
        key: ConfKey::CoreBuffers,
        allowed: ["64", "4096"],
        refused: ["63", "4097"],
    },
    Ends {
        section: "core",
        name: "pace",
        key: ConfKey::CorePace,
        allowed: ["0", "65536"],
        refused: ["-1", "65537"],
    },
    Ends {
        section: "tcp",
        name: "window",
        key: ConfKey::TcpWindow,
        allowed: ["64", "65535"],
        refused: ["63", "65536"],
    },
    Ends {
        section: "tcp",
        name: "mss",
        key: ConfKey::TcpMss,
        allowed: ["64", "1460"],
        refused: ["63", "1461"],
    },
    Ends {
        section: "tcp",
        name: "rto",
        key: ConfKey::TcpRto,
        allowed: ["1", "60000"],
        refused: ["0", "60001"],
    },
    Ends {
        section: "tcp",
        name: "retries",
        key: ConfKey::TcpRetries,
        allowed: ["1", "8"],
        refused: ["0", "9"],
    },
    Ends {
        section: "tcp",
        name: "time_wait",
        key: ConfKey::TcpTimeWait,
        allowed: ["1", "60000"],
        refused: ["0", "60001"],
    },
    Ends {
        section: "tcp",
        name: "checksum",
        key: ConfKey::TcpChecksum,
        allowed: ["true", "false"],
        refused: ["1", "\"true\""],
    },
    Ends {
        section: "push",
        name: "text",
        key: ConfKey::PushText,
        allowed: ["\"\"", "'a'"],
        refused: ["1", "[\"a\"]"],
    },
    Ends {
        section: "push",
        name: "peers",
        key: ConfKey::PushPeers,
        allowed: ["[]", "[{ip = \"1.2.3.4\", port = 65535}]"],
        refused: [
            "[{ip = \"1.2.3.4\", port = 0}]",
            "{ip = \"1.2.3.4\", port = 1}",
        ],
    },
];

#[test]
fn ends_of_ranges(rt: HostRuntime) -> Result<(), Fail> {
    let alloc = rt.alloc();
    for ends in &ENDS {
        for value in ends.allowed {
            let text = with_key(alloc, ends.section, ends.name, value)?;
            assert_eq!(rt; outcome(alloc, text.as_str()), Ok(()), "{text}");
        }
        for value in [ends.refused[0], ends.refused[1], "1.0", "[[]]"] {
            let text = with_key(alloc, ends.section, ends.name, value)?;
            assert_eq!(rt;
                outcome(alloc, text.as_str()),
                Err(ConfFault::Range { key: ends.key }),
                "{text}"
            );
        }
    }
    Ok(())
}

// A text, and what the reader answers.
struct Case {
    text: &'static str,
    want: Result<(), ConfFault>,
}

// Whole texts that speak of the local side alone.
const LOCAL: [Case; 32] = [
    Case {
        text: "[local]\nmac = \"02:00:00:00:00:01\"\nip = \"161.142.100.80\"\nport = 1766\napp = \"kv\"\n",
        want: Ok(()),
    },
    Case {
        text: "[local]\n",
        want: Err(ConfFault::Missing {
            key: ConfKey::LocalMac,
        }),
    },
    Case {
        text: "[local]\nmac = \"02:00:00:00:00:01\"\n",
        want: Err(ConfFault::Missing {
            key: ConfKey::LocalIp,
        }),
    },
    Case {
        text: "[local]\nmac = \"02:00:00:00:00:01\"\nip = \"161.142.100.80\"\napp = \"kv\"\n",
        want: Err(ConfFault::Missing {
            key: ConfKey::LocalPort,
        }),
    },
    Case {
        text: "[local]\nmac = \"02:00:00:00:00:01\"\nip = \"161.142.100.80\"\nport = 1766\n",
        want: Err(ConfFault::Missing {
            key: ConfKey::LocalApp,
        }),
    },
    Case {
        text: "[local]\nmac = 1\nip = 2\nport = 0\napp = 0\n",
        want: Err(ConfFault::Range {
            key: ConfKey::LocalMac,
        }),
    },
    Case {
        text: "[local]\nmac = \"02:00:00:00:00:0\"\nip = \"161.142.100.80\"\nport = 1766\napp = \"kv\"\n",
        want: Err(ConfFault::Range {
            key: ConfKey::LocalMac,
        }),
    },
    Case {
        text: "[local]\nmac = \"02:00:00:00:00:001\"\nip = \"161.142.100.80\"\nport = 1766\napp = \"kv\"\n",
        want: Err(ConfFault::Range {
            key: ConfKey::LocalMac,
        }),
    },
    Case {
        text: "[local]\nmac = \"02:00:00:00:00:0g\"\nip = \"161.142.100.80\"\nport = 1766\napp = \"kv\"\n",
        want: Err(ConfFault::Range {
            key: ConfKey::LocalMac,
        }),
    },
    Case {
        text: "[local]\nmac = \"02-00-00-00-00-01\"\nip = \"161.142.100.80\"\nport = 1766\napp = \"kv\"\n",
        want: Err(ConfFault::Range {
            key: ConfKey::LocalMac,
        }),
    },
    Case {
        text: "[local]\nmac = \"2:00:00:00:00:001\"\nip = \"161.142.100.80\"\nport = 1766\napp = \"kv\"\n",
        want: Err(ConfFault::Range {
            key: ConfKey::LocalMac,
        }),
    },
    Case {
        text: "[local]\nmac = \"02:00:00:00:00:01\"\nip = \"0.0.0.0\"\nport = 1766\napp = \"kv\"\n",
        want: Ok(()),
    },
    Case {
        text: "[local]\nmac = \"02:00:00:00:00:01\"\nip = \"255.255.255.255\"\nport = 1766\napp = \"kv\"\n",
        want: Ok(()),
    },
    Case {
        text: "[local]\nmac = \"02:00:00:00:00:01\"\nip = 1\nport = 1766\napp = \"kv\"\n",
        want: Err(ConfFault::Range {
            key: ConfKey::LocalIp,
        }),
    },
    Case {
        text: "[local]\nmac = \"02:00:00:00:00:01\"\nip = \"\"\nport = 1766\napp = \"kv\"\n",
        want: Err(ConfFault::Range {
            key: ConfKey::LocalIp,
        }),
    },
    Case {
        text: "[local]\nmac = \"02:00:00:00:00:01\"\nip = \"1.2.3\"\nport = 1766\napp = \"kv\"\n",
        want: Err(ConfFault::Range {
            key: ConfKey::LocalIp,
        }),
    },
    Case {
        text: "[local]\nmac = \"02:00:00:00:00:01\"\nip = \"1.2.3.\"\nport = 1766\napp = \"kv\"\n",
        want: Err(ConfFault::Range {
            key: ConfKey::LocalIp,
        }),
    },
    Case {
        text: "[local]\nmac = \"02:00:00:00:00:01\"\nip = \"1.2.3.4.\"\nport = 1766\napp = \"kv\"\n",
        want: Err(ConfFault::Range {
            key: ConfKey::LocalIp,
        }),
    },
    Case {
        text: "[local]\nmac = \"02:00:00:00:00:01\"\nip = \"1.2.3.4.5\"\nport = 1766\napp = \"kv\"\n",
        want: Err(ConfFault::Range {
            key: ConfKey::LocalIp,
        }),
    },
    Case {
        text: "[local]\nmac = \"02:00:00:00:00:01\"\nip = \"1.2.3.256\"\nport = 1766\napp = \"kv\"\n",
        want: Err(ConfFault::Range {
            key: ConfKey::LocalIp,
        }),
    },
    Case {
        text: "[local]\nmac = \"02:00:00:00:00:01\"\nip = \"1.2.3.04\"\nport = 1766\napp = \"kv\"\n",
        want: Err(ConfFault::Range {
            key: ConfKey::LocalIp,
        }),
    },
    Case {
        text: "[local]\nmac = \"02:00:00:00:00:01\"\nip = \"1.2.00.4\"\nport = 1766\napp = \"kv\"\n",
        want: Err(ConfFault::Range {
            key: ConfKey::LocalIp,
        }),
    },
    Case {
        text: "[local]\nmac = \"02:00:00:00:00:01\"\nip = \"+1.2.3.4\"\nport = 1766\napp = \"kv\"\n",
        want: Err(ConfFault::Range {
            key: ConfKey::LocalIp,
        }),
    },
    Case {
        text: "[local]\nmac = \"02:00:00:00:00:01\"\nip = \" 1.2.3.4\"\nport = 1766\napp = \"kv\"\n",
        want: Err(ConfFault::Range {
            key: ConfKey::LocalIp,
        }),
    },
    Case {
        text: "[local]\nmac = \"02:00:00:00:00:01\"\nip = \"161.142.100.80\"\nport = 1\napp = \"kv\"\n",
        want: Ok(()),
    },
    Case {
        text: "[local]\nmac = \"02:00:00:00:00:01\"\nip = \"161.142.100.80\"\nport = 65535\napp = \"kv\"\n",
        want: Ok(()),
    },
    Case {
        text: "[local]\nmac = \"02:00:00:00:00:01\"\nip = \"161.142.100.80\"\nport = 0\napp = \"kv\"\n",
        want: Err(ConfFault::Range {
            key: ConfKey::LocalPort,
        }),
    },
    Case {
        text: "[local]\nmac = \"02:00:00:00:00:01\"\nip = \"161.142.100.80\"\nport = 65536\napp = \"kv\"\n",
        want: Err(ConfFault::Range {
            key: ConfKey::LocalPort,
        }),
    },
    Case {
        text: "[local]\nmac = \"02:00:00:00:00:01\"\nip = \"161.142.100.80\"\nport = -1\napp = \"kv\"\n",
        want: Err(ConfFault::Range {
            key: ConfKey::LocalPort,
        }),
    },
    Case {
        text: "[local]\nmac = \"02:00:00:00:00:01\"\nip = \"161.142.100.80\"\nport = \"1766\"\napp = \"kv\"\n",
        want: Err(ConfFault::Range {
            key: ConfKey::LocalPort,
        }),
    },
    Case {
        text: "[local]\nmac = \"02:00:00:00:00:01\"\nip = \"161.142.100.80\"\nport = 1766\napp = \"Echo\"\n",
        want: Err(ConfFault::Range {
            key: ConfKey::LocalApp,
        }),
    },
    Case {
        text: "[local]\nmac = \"02:00:00:00:00:01\"\nip = \"161.142.100.80\"\nport = 1766\napp = true\n",
        want: Err(ConfFault::Range {
            key: ConfKey::LocalApp,
        }),
    },
];

// Whole texts whose first fault stands at or before the first key.
const FIRST: [Case; 21] = [
    Case {
        text: "",
        want: Err(ConfFault::Missing {
            key: ConfKey::LocalMac,
        }),
    },
    Case {
        text: "# nothing\n",
        want: Err(ConfFault::Missing {
            key: ConfKey::LocalMac,
        }),
    },
    Case {
        text: "local = ",
        want: Err(ConfFault::Text),
    },
    Case {
        text: "local",
        want: Err(ConfFault::Text),
    },
    Case {
        text: "[local]\n[local]\ncolour = 1\n",
        want: Err(ConfFault::Text),
    },
    Case {
        text: "colour = 1",
        want: Err(ConfFault::Unknown),
    },
    Case {
        text: "local = 1\ncolour = 1",
        want: Err(ConfFault::Unknown),
    },
    Case {
        text: "[local]\ncolour = 1",
        want: Err(ConfFault::Unknown),
    },
    Case {
        text: "[local.mac]\nx = 1",
        want: Err(ConfFault::Unknown),
    },
    Case {
        text: "[[local]]\nmac = 1\n[[local]]\ncores = 1",
        want: Err(ConfFault::Unknown),
    },
    Case {
        text: "[core]\nwindow = 1",
        want: Err(ConfFault::Unknown),
    },
    Case {
        text: "[tcp]\nbatch = 1",
        want: Err(ConfFault::Unknown),
    },
    Case {
        text: "neighbour = [{ip = 1}, {mac = 1, port = 1}]",
        want: Err(ConfFault::Unknown),
    },
    Case {
        text: "neighbour = [[{port = 1}]]",
        want: Err(ConfFault::Unknown),
    },
    Case {
        text: "[neighbour]\nip = {x = 1}",
        want: Err(ConfFault::Unknown),
    },
    Case {
        text: "[push]\nip = 1",
        want: Err(ConfFault::Unknown),
    },
    Case {
        text: "[push.peers]\nmac = 1",
        want: Err(ConfFault::Unknown),
    },
    Case {
        text: "push = [{peers = [{ip = 1, text = 1}]}]",
        want: Err(ConfFault::Unknown),
    },
    Case {
        text: "local = 1",
        want: Err(ConfFault::Range {
            key: ConfKey::LocalMac,
        }),
    },
    Case {
        text: "[[local]]\nmac = 1",
        want: Err(ConfFault::Range {
            key: ConfKey::LocalMac,
        }),
    },
    Case {
        text: "core = 1\ntcp = 1\npush = 1",
        want: Err(ConfFault::Missing {
            key: ConfKey::LocalMac,
        }),
    },
];

// Texts that the standard configuration follows.
const BEHIND: [Case; 20] = [
    Case {
        text: "core = 1\ntcp = 1\nneighbour = 1\npush = 1",
        want: Err(ConfFault::Range {
            key: ConfKey::CoreCores,
        }),
    },
    Case {
        text: "core = []\n[tcp]\nwindow = 1",
        want: Err(ConfFault::Range {
            key: ConfKey::CoreCores,
        }),
    },
    Case {
        text: "tcp = 1\nneighbour = 1\npush = 1",
        want: Err(ConfFault::Range {
            key: ConfKey::TcpWindow,
        }),
    },
    Case {
        text: "neighbour = 1\npush = 1",
        want: Err(ConfFault::Range {
            key: ConfKey::Neighbour,
        }),
    },
    Case {
        text: "push = 1",
        want: Err(ConfFault::Range {
            key: ConfKey::PushText,
        }),
    },
    Case {
        text: "core = {pace = -1, buffers = 1, batch = 0, live = 9, cores = 8}",
        want: Err(ConfFault::Range {
            key: ConfKey::CoreLive,
        }),
    },
    Case {
        text: "core = {live = 2, cores = 2}",
        want: Ok(()),
    },
    Case {
        text: "core = {live = 0, cores = 0}",
        want: Err(ConfFault::Range {
            key: ConfKey::CoreCores,
        }),
    },
    Case {
        text: "tcp = {checksum = 0, retries = 0}",
        want: Err(ConfFault::Range {
            key: ConfKey::TcpRetries,
        }),
    },
    Case {
        text: "neighbour = {ip = \"1.2.3.4\", mac = \"02:00:00:00:00:02\"}",
        want: Err(ConfFault::Range {
            key: ConfKey::Neighbour,
        }),
    },
    Case {
        text: "neighbour = [{ip = \"1.2.3.4\"}]",
        want: Err(ConfFault::Range {
            key: ConfKey::Neighbour,
        }),
    },
    Case {
        text: "neighbour = [{mac = \"02:00:00:00:00:02\"}]",
        want: Err(ConfFault::Range {
            key: ConfKey::Neighbour,
        }),
    },
    Case {
        text: "neighbour = [{}]",
        want: Err(ConfFault::Range {
            key: ConfKey::Neighbour,
        }),
    },
    Case {
        text: "neighbour = [1]",
        want: Err(ConfFault::Range {
            key: ConfKey::Neighbour,
        }),
    },
    Case {
        text: "neighbour = [{ip = \"1.2.3.04\", mac = \"02:00:00:00:00:02\"}]",
        want: Err(ConfFault::Range {
            key: ConfKey::Neighbour,
        }),
    },
    Case {
        text: "neighbour = [{ip = \"1.2.3.4\", mac = \"02:00:00:00:00:02\"}, {ip = \"1.2.3.5\", mac = \"02:00:00:00:00:02\"}]",
        want: Ok(()),
    },
    Case {
        text: "neighbour = [{ip = \"1.2.3.4\", mac = \"02:00:00:00:00:02\"}, {ip = \"1.2.3.5\", mac = \"02:00:00:00:00:02\"}, {ip = \"1.2.3.4\", mac = \"02:00:00:00:00:03\"}]",
        want: Err(ConfFault::Range {
            key: ConfKey::Neighbour,
        }),
    },
    Case {
        text: "push = {peers = [{ip = \"1.2.3.4\"}], text = 1}",
        want: Err(ConfFault::Range {
            key: ConfKey::PushText,
        }),
    },
    Case {
        text: "push = {peers = [{ip = \"1.2.3.4\"}]}",
        want: Err(ConfFault::Range {
            key: ConfKey::PushPeers,
        }),
    },
    Case {
        text: "push = {peers = [{ip = \"1.2.3.4\", port = 1}, {ip = \"1.2.3.4\", port = 1}]}",
        want: Ok(()),
    },
];

#[test]
fn whole_texts(rt: HostRuntime) -> Result<(), Fail> {
    for case in &LOCAL {
        assert_eq!(rt; outcome(rt.alloc(), case.text), case.want, "{}", case.text);
    }
    for case in &FIRST {
        assert_eq!(rt; outcome(rt.alloc(), case.text), case.want, "{}", case.text);
    }
    assert!(rt; matches!(read_conf(rt.alloc(), &[b'#', 0xff]), Err(ConfFault::Text)));
    Ok(())
}

#[test]
fn before_the_standard(rt: HostRuntime) -> Result<(), Fail> {
    let alloc = rt.alloc();
    for case in &BEHIND {
        let text = format!(in alloc; "{}\n{STANDARD}", case.text)?;
        assert_eq!(rt; outcome(alloc, text.as_str()), case.want, "{text}");
    }
    Ok(())
}

// The standard configuration with so many neighbours and peers.
fn many_tables(alloc: Global, neighbours: u8, peers: u8) -> Result<String, AllocError> {
    let mut text = String::from_str(alloc, STANDARD)?;
    for i in 0..neighbours {
        let table = format!(in alloc;
            "[[neighbour]]\nip = \"10.0.0.{i}\"\nmac = \"02:00:00:00:00:02\"\n"
        )?;
        text.push_str(table.as_str())?;
    }
    for _ in 0..peers {
        text.push_str("[[push.peers]]\nip = \"10.0.0.1\"\nport = 7\n")?;
    }
    Ok(text)
}

// The standard configuration with a text of so many bytes.
fn long_text(alloc: Global, len: usize) -> Result<String, AllocError> {
    let mut text = String::new(alloc);
    for _ in 0..len {
        text.push_str("a")?;
    }
    with_key(
        alloc,
        "push",
        "text",
        format!(in alloc; "\"{text}\"")?.as_str(),
    )
}

#[test]
fn longest_lists(rt: HostRuntime) -> Result<(), Fail> {
    let alloc = rt.alloc();
    let text = many_tables(alloc, 64, 64)?;
    let conf = read_conf(alloc, text.as_bytes())?;
    assert_eq!(rt; (conf.neighbours.len(), conf.peers.len()), (64, 64));
    let text = many_tables(alloc, 65, 65)?;
    assert_eq!(rt;
        outcome(alloc, text.as_str()),
        Err(ConfFault::Range {
            key: ConfKey::Neighbour
        })
    );
    let text = many_tables(alloc, 64, 65)?;
    assert_eq!(rt;
        outcome(alloc, text.as_str()),
        Err(ConfFault::Range {
            key: ConfKey::PushPeers
        })
    );
    let text = long_text(alloc, 65_536)?;
    assert_eq!(rt; outcome(alloc, text.as_str()), Ok(()));
    let text = long_text(alloc, 65_537)?;
    assert_eq!(rt;
        outcome(alloc, text.as_str()),
        Err(ConfFault::Range {
            key: ConfKey::PushText
        })
    );
    Ok(())
}
