ghost use Rattle.dv_board.specs.Laws.{LeastIsOneList};

/// What a key table gives depends on the items alone that were offered to it, whatever the schedule was.
pub fn least_is_one_list()
    ensures { LeastIsOneList }
{}
