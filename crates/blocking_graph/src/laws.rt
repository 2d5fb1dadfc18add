// Laws of every list of records and its edges.
ghost use Rattle.std.specs.Prelude.{ℕ, List};
ghost use Rattle.std.specs.List.{AllByRecursion};
ghost use Rattle.blocking_graph.specs.declared.segments.SegmentRecord.{SegmentRecord};
ghost use Rattle.blocking_graph.specs.Edges.{edges_of};
ghost use Rattle.blocking_graph.specs.Pairs.{HasEight, IsEdgeOf, edge_between, records_of};

/// Law: in the edges of a list of records, a pair of nodes has an edge exactly if it has a record. The edge's count is
/// the number of the pair's records, and its averages are those of their samples, in order. It has no effect at run
/// time.
pub fn edges_tell_of_records()
    ensures told { (records : List SegmentRecord) → AllByRecursion HasEight records → (from to : ℕ) →
        IsEdgeOf (records_of records from to) (edge_between (edges_of records) from to) }
{}
