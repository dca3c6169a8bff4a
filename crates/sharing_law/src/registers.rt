//! The registers of environments.
ghost use Rattle.sharing_law.specs.Registers.{RegisterZeroStays};

/// At each moment of every run register 0 of each environment is 0: no instruction, no answer, no transfer and no
/// handler's entry writes it. So register 0 of a transfer's caller needn't be carried.
pub fn law_register_zero()
    ensures { RegisterZeroStays }
{}
