//! What holds in every state that a boot reaches, beside that it is sound; and of calls, what the manual pages say of
//! all.

ghost use Rattle.lx_laws.specs.Families.{TurnsKeepFamilies, KernelsHaveFamilies};
ghost use Rattle.lx_laws.specs.Holders.{NothingIsLeftOpen};
ghost use Rattle.lx_laws.specs.Manual.{RefusedCallsChangeNothing, ChildrenBeginAlike, ProgramsKeepDescriptors};

/// A parent is there before its children, and until they leave it or it them: a turn keeps this, and a boot begins so.
pub fn families_hold()
    ensures turn { TurnsKeepFamilies }
    ensures kernels { KernelsHaveFamilies }
{}

/// Each description is named by a process that lives, each pipe has an end, each node a path or a description.
pub fn nothing_is_left_open()
    ensures { NothingIsLeftOpen }
{}

/// A refusal changes nothing, a child begins as its parent, and a new program has the descriptors that aren't marked.
pub fn calls_are_as_told()
    ensures refused { RefusedCallsChangeNothing }
    ensures child { ChildrenBeginAlike }
    ensures program { ProgramsKeepDescriptors }
{}
