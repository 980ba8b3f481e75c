//! Laws of taking pages.

ghost use Rattle.state_transfer.specs.Taking.{PuttingBackRestores};

/// Giving a page back at once leaves the transfer as it was. Does nothing.
pub fn putting_back_restores()
    ensures { PuttingBackRestores }
{}
