// A play whose report is decided.

use ix_appdef::Application;
use ix_conf::Conf;
use ix_groupdef::Env;
use ix_pcap::Span;
use ix_told::Asked;
use ix_trace::Report;

/// A play whose report is decided.
#[derive(Clone, Copy)]
pub struct Play<'a> {
    /// Its configuration.
    pub conf: &'a Conf,
    /// What its groups are told.
    pub env: &'a Env<Application>,
    /// The bytes of its capture.
    pub bytes: &'a [u8],
    /// Where the records lie in them.
    pub spans: &'a [Span],
    /// The connects that ask a group.
    pub asked: &'a [Asked],
    /// What it tells.
    pub report: &'a Report,
}
