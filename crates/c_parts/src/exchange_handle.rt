//! One side of an exchange of offers and answers on the heap, as C holds it.

ghost use Rattle.c_parts.specs.ExchangeHandle.{exchange_owns, exchange_coded};
ghost use Rattle.c_parts.specs.Parts.{IsRoomFull};
ghost use Rattle.exchange.specs.declared.state.exchange.Exchange.{Exchange};
ghost use Rattle.std.specs.Prelude.{◌≡◌, Option, None, Some};

use crate::parts::Parts;
use exchange::Exchange;
use std::alloc::Global;
use std::marker::Model;

/// The handle: empty, or the owner of one side of an exchange. An empty one is all zeros.
#[repr(C)]
#[derive(Drop)]
pub struct ExchangeHandle {
    ptr: *mut u8,
    alloc: Global,
    pub ghost inner: { Option Exchange } by { exchange_coded },
}

impl Model for ExchangeHandle {
    ghost also_owns = { λ h. exchange_owns h.alloc h.ptr h.inner };
}

impl ExchangeHandle {
    /// One that owns nothing.
    fn empty(alloc: Global) -> ExchangeHandle
        ensures { result.inner ≡ None }
    {
        ExchangeHandle {
            ptr: std::ptr::null_mut(),
            alloc,
        }
    }

    fn of_parts(parts: Parts<Exchange, Global>) -> ExchangeHandle
        ensures { result.inner ≡ Some parts.value }
    {
        let Parts { ptr, alloc } = parts;
        ExchangeHandle {
            ptr: ptr as *mut u8,
            alloc,
        }
    }

    fn into_parts(self) -> Parts<Exchange, Global>
        requires { IsRoomFull self.inner }
        ensures { self.inner ≡ Some result.value }
    {
        let ExchangeHandle { ptr, alloc } = self;
        Parts {
            ptr: ptr as *mut Exchange,
            alloc,
        }
    }

    /// What the handle owns.
    pub fn into_box(self) -> Box<Exchange>
        requires { IsRoomFull self.inner }
        ensures { self.inner ≡ Some result.value }
    {
        self.into_parts().into_box()
    }

    /// What the handle owns; it is empty then.
    pub fn take(&mut self, alloc: Global) -> Box<Exchange>
        requires { IsRoomFull self.old.inner }
        ensures { (self.old.inner ≡ Some result.value) × (self.new.inner ≡ None) }
    {
        let full = std::mem::replace(self, ExchangeHandle::empty(alloc));
        full.into_box()
    }

    /// Gives it to the handle, which was empty.
    pub fn put(&mut self, owned: Box<Exchange>)
        requires { self.old.inner ≡ None }
        ensures { self.new.inner ≡ Some owned.value }
    {
        *self = ExchangeHandle::of_parts(Parts::of(owned));
    }
}

/// It may go from thread to thread, with what it owns.
unsafe impl Send for ExchangeHandle {}

/// Asks the prover for that.
fn exchange_send_is_proved<T: Send>(sent: T) -> T {
    sent
}

pub fn sent_exchange(handle: ExchangeHandle) -> ExchangeHandle {
    exchange_send_is_proved(handle)
}
