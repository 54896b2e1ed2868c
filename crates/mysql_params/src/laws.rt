//! Laws of the definitions that the contracts cite, and of equality, of all crates below,
//! re-exported by name. A program calls one only for its clauses, if a proof needs them.

pub use mysql_bind_call::laws::{accepted_queries, texts_by_position, texts_of_portable_queries};
pub use mysql_binding::laws::{
    bind_error_equality, bind_pairs_error_equality, bound_again_is_the_same, bound_texts_are_sent,
    bound_texts_in_clients, bound_texts_on_servers, by_position_is_the_same,
    equal_texts_say_the_same, first_not_alone_is_first, isolation, no_place_is_left,
    one_bound_text, parsed_query_equality, position_of_first_not_alone,
    wide_names_without_capitals, wide_query_equality,
};
pub use mysql_float_literal::laws::{
    doubles_read_before_others, ends_of_doubles, is_double_is_shape, one_double_text,
};
pub use mysql_fragments::laws::{
    bound_fragments_are_sent, bound_fragments_in_clients, bound_fragments_on_servers,
    doubles_are_plain, fragments_are_sent, fragments_in_clients, fragments_isolated,
    fragments_on_servers, fragments_read_back, fragments_read_in_place, one_text_with_fragments,
    said_fragments_exist, steady_fragments_are_sent, steady_fragments_in_clients,
    values_bind_as_text,
};
pub use mysql_named_params::laws::{
    locality, lowered_names, marked_wide_names, mixed_error_equality, named_params_error_equality,
    nameless_is_unchanged, names_without_capitals, one_token_list, parsed_equality,
    positions_of_places, renaming_undone, tokens_exist, wide_names, wide_names_are_whole,
};
pub use mysql_params_core::laws::{
    into_positional_error_equality, lookups_agree, missing_named_parameter_error_equality,
    params_confusion_error_equality, params_equality, params_error_equality, prefixes_are_found,
    to_params_error_equality,
};
pub use mysql_portable::laws::{
    client_is_a_server, grammar_is_a_server, known_servers, modes_agree, one_list_on_a_server,
    portable_is_sharp, portable_reading, same_places, same_statements, steady_texts,
    unportable_equality,
};
pub use mysql_query_core::laws::run_error_equality;
pub use mysql_steady_text::laws::{
    both_modes_error_equality, both_modes_pairs_error_equality, bound_guarded_texts,
    bound_guarded_texts_on_servers, bound_steady_texts, bound_steady_texts_are_sent,
    bound_steady_texts_in_clients, bound_texts_in_both_modes, client_sets, guarded_isolation,
    guarded_literals, guarded_texts_on_servers, guarded_texts_over_sets, one_content,
    one_guarded_text, one_steady_text, steady_isolation, steady_literals,
    steady_pairs_error_equality, steady_text_error_equality, steady_texts_are_sent,
    steady_texts_in_clients, steady_texts_on_servers,
};
