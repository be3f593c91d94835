// The windows of congestion control (RFC 5681).
ghost use Rattle.std.specs.Prelude.{◌≡◌};
ghost use Rattle.ix_tcpdef.specs.Connection.{
  initial_window as initial_of,
  grown as grown_of,
  threshold_after_loss as threshold_of,
};

/// The congestion window never passes this size, in octets.
const MOST_CONGESTION_WINDOW: u32 = 131_072;

/// The congestion window in octets at the opening, for this send MSS (RFC 5681, section 3.1).
pub fn initial_window(mss: u16) -> u32
    ensures { result ≡ initial_of mss }
{
    let mss = u32::from(mss);
    if mss > 2190 {
        2 * mss
    } else if mss > 1095 {
        3 * mss
    } else {
        4 * mss
    }
}

/// The congestion window, so many octets larger.
pub fn grown(cwnd: u32, by: u32) -> u32
    ensures { result ≡ grown_of cwnd by }
{
    cwnd.saturating_add(by).min(MOST_CONGESTION_WINDOW)
}

/// The slow start threshold in octets after a loss, where so many are in flight (RFC 5681, section 3.1, equation 4).
pub fn threshold_after_loss(flight: u32, mss: u16) -> u32
    ensures { result ≡ threshold_of flight mss }
{
    (flight / 2).max(2 * u32::from(mss))
}
