//! Laws of the names of the registers, and of the edges of the memory map. Each function does nothing: its clause is
//! the law.

ghost use Rattle.addr_decode.specs.MapRegister.{MapBytesAreNamed, NamesStandForOne};
ghost use Rattle.addr_decode.specs.Edges.{AreasChangeAtEdges, FewEdges};

/// The areas of an address can change at edges alone.
pub fn law_areas_change_at_edges()
    ensures equal { AreasChangeAtEdges }
{}

/// A board has at most `MOST_EDGES` edges, so that its memory map has at most one range more.
#[tactic(auto, using(crate::proofs::EdgeCounts::few_edges))]
pub fn law_few_edges()
    ensures few { FewEdges }
{}

/// Exactly the bytes that the address map depends on have a name, and each name stands for one register.
#[tactic(auto, using(crate::proofs::NameLemmas::map_bytes_named, crate::proofs::NameLemmas::names_stand))]
pub fn law_names()
    ensures named { MapBytesAreNamed }
    ensures one { NamesStandForOne }
{}
