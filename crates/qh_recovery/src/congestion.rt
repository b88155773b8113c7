ghost use Rattle.std.specs.Prelude.{◌≡◌, ◌<◌, ◌≤◌, ℕ};
ghost use Rattle.qh_recovery.specs.Window.{new_controller, is_in_slow_start, acked, lost, allows};

/// The size, in bytes, of the datagrams by which the window grows (RFC 9002, section 7.2; RFC 9000, section 14).
const DATAGRAM_SIZE: u64 = 1_200;

/// The least window after a loss, in bytes: that of two datagrams (RFC 9002, section 7.2).
const MINIMUM_WINDOW: u64 = 2_400;

/// How many bytes may be in flight (RFC 9002, section 7, with the NewReno of its appendix B).
#[derive(Clone, Copy)]
pub struct WindowController {
    /// The window, in bytes.
    pub window: u64,
    /// The threshold below which the window grows by what is acknowledged, None before the first cut.
    pub ssthresh: Option<u64>,
    /// How many bytes were acknowledged since the window last grew, from the threshold on.
    pub bytes_acked: u64,
    /// A packet with this number or a greater one was sent after the last cut. It is 0 before the first.
    pub recovery_from: u64,
}

/// What of a window others may see.
#[derive(Clone, Copy)]
pub struct ControllerMetrics {
    /// The window, in bytes.
    pub congestion_window: u64,
    /// The threshold below which the window grows by what is acknowledged, None before the first cut.
    pub ssthresh: Option<u64>,
}

impl WindowController {
    /// A window of `initial_window` bytes.
    pub fn new(initial_window: u64) -> WindowController
        ensures { result ≡ new_controller initial_window }
    {
        WindowController {
            window: initial_window,
            ssthresh: None,
            bytes_acked: 0,
            recovery_from: 0,
        }
    }

    /// Bytes that were in flight are acknowledged (RFC 9002, sections 7.3.1 and 7.3.3). Each count saturates at the greatest
    /// number of 64 bits.
    pub fn on_ack(&mut self, bytes: u64)
        ensures { self.new ≡ acked bytes self.old }
    {
        if self.is_in_slow_start() {
            self.window = self.window.saturating_add(bytes);
            return;
        }
        let total = self.bytes_acked.saturating_add(bytes);
        if total < self.window {
            self.bytes_acked = total;
            return;
        }
        self.bytes_acked = total - self.window;
        self.window = self.window.saturating_add(DATAGRAM_SIZE);
    }

    /// Whether the window is below the threshold, or there is none.
    fn is_in_slow_start(self) -> bool
        ensures { result ≡ is_in_slow_start self }
    {
        match self.ssthresh {
            None => true,
            Some(ssthresh) => self.window < ssthresh,
        }
    }

    /// The packet with a number is lost, and the next packet will bear the next number. The window is halved if the lost one
    /// was sent after the last cut (RFC 9002, section 7.3.2). Then no loss of a packet that was sent before halves it again.
    pub fn on_loss(&mut self, number: u64, next_number: u64)
        ensures value { self.new ≡ lost number next_number self.old }
        ensures once { self.old.recovery_from ≤ number → (other later : ℕ) → other < next_number → lost other later self.new ≡ self.new }
    {
        if number < self.recovery_from {
            return;
        }
        let window = (self.window / 2).max(MINIMUM_WINDOW);
        *self = WindowController {
            window,
            ssthresh: Some(window),
            bytes_acked: 0,
            recovery_from: next_number,
        };
    }

    /// The window and the threshold.
    pub fn metrics(self) -> ControllerMetrics
        ensures { result ≡ record { congestion_window = self.window; ssthresh = self.ssthresh } }
    {
        ControllerMetrics {
            congestion_window: self.window,
            ssthresh: self.ssthresh,
        }
    }

    /// Whether one more datagram of 1,200 bytes may be sent while `in_flight` bytes are in flight: it fits into the window, or
    /// none is (RFC 9002, section 7).
    pub fn allows(self, in_flight: u64) -> bool
        ensures { result ≡ allows self in_flight }
    {
        in_flight == 0 || DATAGRAM_SIZE <= self.window.saturating_sub(in_flight)
    }
}
