// What no clause says: the plans of a play under a configuration, and that memory is enough.

use crate::{ScriptFault, ScriptKind, read_script};
use ix_conf::read_conf;
use std::test::Fail;

const LOCAL: &str =
    "[local]\nmac = \"02:00:00:00:00:01\"\nip = \"161.142.100.80\"\nport = 1766\napp = \"echo\"\n[core]\n";

// The lines of `core`, a script, and the number of entries that it gives.
const SCRIPTS: [(&str, &str, usize); 3] = [
    ("cores = 3\nlive = 2", "add 2", 337),
    ("cores = 2", "revoke 1", 513),
    (
        "cores = 3\nlive = 2\npace = 2",
        "version 2\nadd 2\neach 0 1",
        345,
    ),
];

#[test]
fn under_a_configuration(rt: HostRuntime) -> Result<(), Fail> {
    let alloc = rt.alloc();
    let own = [false, false, true];
    for (core, text, want) in &SCRIPTS {
        let conf = read_conf(alloc, format!(in alloc; "{LOCAL}{core}")?.as_bytes())?;
        let entries = read_script(alloc, text.as_bytes(), &conf, &own)?;
        assert_eq!(rt; entries.len(), *want, "{text}");
    }
    let conf = read_conf(alloc, format!(in alloc; "{LOCAL}")?.as_bytes())?;
    let refused = match read_script(alloc, b"revoke 0", &conf, &own) {
        Ok(_) => None,
        Err(fault) => Some(fault),
    };
    assert_eq!(rt;
        refused,
        Some(ScriptFault::At {
            line: 1,
            kind: ScriptKind::LastCore
        })
    );
    Ok(())
}
